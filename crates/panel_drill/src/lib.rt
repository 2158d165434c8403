//! A drill: a large site at work over a long record, both made from a number.
//!
//! Begin with [`drill`]. It draws a record from the seed tick by tick and runs a site over it, with its journal on a
//! disk in memory that never fails. What it gives is one line: the zones in alarm at their own panels, the outputs that
//! are on and the sum of the counters after the last tick. Its contract says that these are what the definitions say of
//! the site and of that record, in which no turn of Keep fails.
//!
//! The site is handed in; that of a drill is what `read_site` makes of the file that `drill_site` gives. All memory is
//! taken before the first tick. That of the disk has its greatest size from the beginning, so a drill of more ticks
//! takes no more.
#![tactic(auto)]

mod counting;
mod drills;
mod line;
mod running;
mod summary;

pub use drills::{MOST_TICKS, drill};
