//! The record of a drill, drawn from a seed tick by tick.
//!
//! Begin with [`Drawer::new`]: a drawer of a seed gives one tick after another by [`Drawer::next_tick`]. Each draws two
//! words from a generator of `rand_pcg`. By the first the tick has one event or none: a point is quiet, in alarm or
//! gone. By the second its turns come in canonical order or backwards, for which [`reversed_order`] is.
//!
//! The whole record is a definition, `drill_ticks` in specs/Records, over the words that the library's own definition
//! of its generator gives. A drawer stands for a seed and a number of ticks, and each call gives the next of that
//! record. No call takes memory.
#![tactic(auto)]

mod drawer;
mod drawn;
mod orders;

pub use drawer::Drawer;
pub use drawn::Drawn;
pub use orders::reversed_order;
