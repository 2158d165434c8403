//! The text of a run as it grows, tick by tick, and what a run promises at the end of each tick.
//!
//! The rules say of a whole run what its timeline and its text are. A program writes that text tick by tick: the
//! opening first, then of each tick what changed and was answered in it. Here stands that text as a function of the
//! ticks of a record, with the laws that it is the text of the run ([`text_is_whole`]) and of a timeline in form
//! ([`timeline_is_of_run`]). [`promises_are_kept`] says at once what is due, caused and committed at the end of each
//! of these ticks. Each function is a law: its contract says it, and its body does nothing.
#![tactic(auto)]

mod failures;
mod promises;
mod texts;

pub use failures::{failures_are_counted, recorded_are_the_same};
pub use promises::promises_are_kept;
pub use texts::{text_is_whole, timeline_is_of_run};
