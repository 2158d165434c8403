//! The rules of the whole as a plain slow program: the timeline of a run.
//!
//! [`timeline`] gives for a list of moments exactly the timeline that the definitions of `panel_rules` give for the
//! history that they are. Below it stand words and faults as they go round the ring, what is kept, and the faces; it
//! looks through all moments anew and keeps only tables of what it has found. [`facts_after`] gives the facts that a
//! turn of Effect goes by.
#![tactic(auto)]

mod coming;
mod face_shown;
mod faces_now;
mod facts;
mod indications;
mod keeping;
mod network;
mod site_state;
mod telling;

pub use face_shown::face_of;
pub use facts::facts_after;
pub use indications::Indications;
pub use network::Network;
pub use telling::{Telling, timeline};
