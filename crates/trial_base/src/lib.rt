//! What points answer, and what the rules of coincidence make of it, as plain slow programs, for trials.
//!
//! Only the programs of trials stand on this crate, and it promises nothing.
#![tactic(auto)]

mod plain_rules;
mod report;

pub use plain_rules::{Cases, DoneAt, Judged, PlainRules};
pub use report::{Report, answers_at, state_at};
