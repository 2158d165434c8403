//! Which zones are due at a panel, by the signals that they have: to be shown, released, and by hand.
//!
//! Begin with [`due_at`], or with [`due_at_each`] for all panels of a site. It is given for each zone from which tick
//! on its least signal counts, of each kind ([`LeastSignals`]), and which panels of the ring are joined, and answers
//! which zones are due at a panel at the end of a tick ([`DueZones`]), each as the rules have it (`specs/Telling`). A
//! signal that counts from a later tick is due later, so of all signals of a zone the least decides (`specs/Deciding`).
//!
//! No call takes memory. [`due_at`] looks once at each zone.
#![tactic(auto)]

mod due_zones;
mod least_signals;
mod reach;

pub use due_zones::{DueZones, due_at, due_at_each};
pub use least_signals::LeastSignals;
