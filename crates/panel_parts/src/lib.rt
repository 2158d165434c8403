//! The parts of one panel at work, joined by lanes: what a report, a turn of a task and an operation make of them.
//!
//! Begin with [`Parts`]. It stands for a run of the site, in which its panel is told things from elsewhere: the facts
//! of its Effect turns, the stamps of the words that it heard, which links are up. What tells them is given by whoever
//! holds the parts: a ring of panels in one process, or a panel by itself that gets frames. Each call says what the
//! parts stand for after it, whatever is told; an operation that comes in force leaves what the turns made so far were
//! told. [`KeptCounts`] are the entries into the fire alarm condition that are kept.
//!
//! Within a panel two lanes join Poll, Decide and Hold; they never hold more than 64 items, so no turn has an
//! answer for a full lane. [`Parts::new`] alone takes memory.
#![tactic(auto)]

mod kept_counts;
mod parts;

pub use kept_counts::{KeptCounts, entries_of};
pub use parts::Parts;
