//! A record at a system, and by the plain program of the definitions, tick by tick.
//!
//! Programs of trials stand on this crate. [`by_system`] plays the ticks of a record at a system with its journal and
//! keeps what was told in each, and the moments that befell; [`by_rules`] gives what the plain program tells of those
//! moments, and [`first_other`] the first tick in which two differ. [`drawn_run`] does all that with a record that is
//! drawn, at a pace, for whatever site. It promises nothing: that a system tells what the definitions say is proved of
//! the system, and here it is tried.
#![tactic(auto)]

mod drawing;
mod drawn_records;
mod histories;
mod pace;
mod played;
mod told;

pub use drawing::{DrawnRun, drawn_run};
pub use drawn_records::drawn_record;
pub use histories::history_blocks;
pub use pace::Pace;
pub use played::{Played, by_rules, by_system};
pub use told::{Told, first_other};
