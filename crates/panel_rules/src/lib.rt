//! The rules of the whole, as definitions: what befalls a site tick by tick, and what each panel makes of it.
//!
//! A history is a list of moments, the newest first: a tick begins, its events happen, and each seat has its turn,
//! in any order. The definitions in specs/ are functions of such a list, of the site, of what was retained at opening
//! and of the operations done: what became of each operation, what Keep commits, which words panels keep of one
//! another, which outputs are on, which faults stand, what a face shows, and what is due and caused. Where an auditor
//! or a node has another source for operations, words or links, it hands in its own.
//!
//! Begin with specs/Moments, and go on with Operations, Zones, Words, Outputs, Faults and Faces; Due and
//! Caused say what the panel owes. What follows from the definitions stands in `panel_laws`. Here are only
//! the laws that the code of the system rests on: how lanes fill ([`lanes_hold_few`]) and that records are
//! runs ([`records_are_runs`]), with the lemmas in proofs/ that the crates above cite.
#![tactic(auto)]

mod lanes;
mod records;

pub use lanes::{lanes_hold_few, lanes_keep_their_tick, taken_by_the_next_tick};
pub use records::{asked_once_in_a_round, records_are_runs};
