//! Who may do what at a panel: the level that a code opens, and the least level of each operation.
//!
//! There are four levels. Level 1 is open to all; the site lists the codes of levels 2, 3 and 4, of which it
//! knows the SHA-256 alone. Begin with [`level_of`], which gives the level of a code, and ask [`allowed`]
//! whether that level is enough for an operation. A code that stands in more than one list opens the greatest
//! of these levels, and one that stands in none, or no code at all, opens level 1: nothing is refused for a
//! wrong code but what needs a level.
//!
//! The rules stand in specs/Levels. No call takes memory. [`level_of`] makes one SHA-256 and compares it with
//! at most 48 others; [`allowed`] takes the same few steps whatever is asked.
#![tactic(auto)]

mod denied;
mod levels;

pub use denied::Denied;
pub use levels::{allowed, level_of};
