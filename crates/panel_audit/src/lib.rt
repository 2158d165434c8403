//! Judging a written text by its record.
//!
//! [`audit`] gives the verdict of the rules on the bytes of a record and of a text (`IsVerdictOn` of `audit_rules`),
//! unless memory runs out. No panel is run: what was done it takes from the answers in the text, and what was due and
//! caused from the record, tick by tick.
#![tactic(auto)]

mod auditing;
mod baseless;
mod broken;
mod case;
mod dark;
mod faces_shown;
mod found;
mod hidden;
mod judge;
mod judging;
mod lowest;
mod numbered;
mod numbers;
mod opening;
mod rows;
mod scan;
mod shown_now;
mod uncaused;

pub use audit_rules::{AuditRule, Verdict};
pub use auditing::audit;
