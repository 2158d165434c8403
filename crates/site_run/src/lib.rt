//! A site at work, tick by tick: its panels, the journal that it keeps, and the text of what they show and answer.
//!
//! Begin with [`Run`]. A tick begins, its events and its order are told, its turns are made, and what changed and was
//! answered in it is written: [`Run::begin`], [`Run::tell`], [`Run::set_order`], [`Run::make_turns`] and
//! [`Run::write_tick`], or [`Run::close`] for the last two. `Stands` of specs/Stands says what a run stands for: the
//! ticks that were run, and the block of the one that is open. What is written is `text_so_far` of run_text. What power
//! cuts leave of its journal's disk, tick by tick, stands in specs/PowerCuts.
//!
//! All memory is taken by [`Run::open`]. A tick costs the turns of the system and a look at the faces of marked panels;
//! its text costs the lines that it has, and a short one goes out in one call.
#![tactic(auto)]

mod lines;
mod run;
mod sized;
mod tick_faces;
mod writing;

pub use run::{Run, with_failure};
pub use sized::note_sized;
pub use tick_faces::TickFaces;
pub use writing::{PAGE_BYTES, TickPage};
