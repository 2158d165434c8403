//! How a command of the program ends: its status, what it tells of that, and the text that it ends with.
//!
//! Begin with [`Status`], of which `number_of` of specs/Statuses says the number that the program exits with.
//! [`Outcome`] is what a command hands back. [`say`] writes a text and ends with a status, or with that of a write
//! fault where the text can't be written: `Says` of specs/Sayings tells which of the two it was, and what was written.
//! No call takes memory.
#![tactic(auto)]

mod outcome;
mod saying;
mod status;

pub use outcome::Outcome;
pub use saying::say;
pub use status::Status;
