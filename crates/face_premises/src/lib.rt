//! How often what the clauses of `System::face` ask for held in a run, so that they are known not to be met idly.
//!
//! [`note_run`] looks at a run tick by tick and notes in a [`Tally`] each case in which the premise of a clause held,
//! and whether the faces that the system told kept what the clause then promises. Its test is plain and no weaker than
//! the premise, so the counts are least ones. It promises nothing itself; only programs that try things stand on it.
#![tactic(auto)]

mod asked;
mod counters;
mod faults;
mod markers;
mod outputs;
mod pairs;
mod run;
mod settings;
mod signals;
mod sought;
mod tally;
mod tracks;
mod wanted;
mod zones;

pub use run::note_run;
pub use tally::Tally;
