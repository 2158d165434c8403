//! Running the tick of a block that a desk has accepted.
//!
//! [`run_block`] runs the next tick over a site at work: it begins it, tells the lines of its block and makes its
//! turns. `tick_told` of specs/Ticks says which tick a block tells, and `RunsBlock` of specs/Running what is left by
//! it; what it shows and answers is at hand then, and is written by `Run::write_tick`. [`is_next`] tells whether a tick
//! is the one that may come, and [`expected`] which one is.
//!
//! No call takes memory.
#![tactic(auto)]

mod ticks;

pub use ticks::{expected, is_next, run_block};
