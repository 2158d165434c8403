//! What can be the cause of a zone that a text shows and of an output that is on.
//!
//! Whoever audits a text doesn't know the stamps of the words that panels heard of one another: a cause counts at each
//! stamp that a panel may have heard. Begin with [`ShownCauses`]: it is told of one tick after another, with the steps
//! of the text, and tells whether a zone can be shown at a panel (`CanBeShown` of `audit_rules`) and all facts that a
//! panel may have heard. An output can be on (`CanBeOn`) where its marker is true over those of its panel:
//! [`can_be_on`].
//!
//! [`ShownCauses::new`] alone takes memory.
#![tactic(auto)]

mod fault_told;
mod masks;
mod outputs;
mod shown_causes;
mod told_faults;

pub use outputs::can_be_on;
pub use shown_causes::ShownCauses;
