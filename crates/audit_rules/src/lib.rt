//! The rules by which a written text is judged against its record, as definitions.
//!
//! An auditor has the bytes of a record and the bytes of a text, and runs no panel: it never looks at how the text
//! came to be. It takes what was done from the answers in the text, and what was retained from its opening faces.
//! Begin with specs/Verdicts; Breaches says which rule is broken where, by what is due and caused in `panel_rules`.
//! CanCause and Hearing stand in for what an auditor can't know, the stamps of the words that panels heard of one
//! another: a cause counts at each stamp that a panel may have heard.
//!
//! [`verdict_is_one`] says that these rules never give two verdicts, [`heard_stamps_may_be_heard`] and
//! [`held_zones_can_be_shown`] that they allow for what a panel hears and shows, and [`small_cases_are_judged`] what
//! they give for a small site.
#![tactic(auto)]

mod audit_rule;
mod examples;
mod laws;
mod verdict;

pub use audit_rule::AuditRule;
pub use examples::small_cases_are_judged;
pub use laws::{heard_stamps_may_be_heard, held_zones_can_be_shown, verdict_is_one};
pub use verdict::Verdict;
