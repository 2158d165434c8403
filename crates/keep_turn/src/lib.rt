//! Keep's turn: it mends the journal where an earlier call left it torn, then commits one batch of changes.
//!
//! Begin with [`keep_turn`]. Its answer, [`Store`], says whether there was nothing to commit, whether the batch is
//! kept, or whether a call of the disk failed. One failure makes no later one: the next turn mends first.
//! [`idle_turn`] is the turn with nothing to commit.
//!
//! It takes no memory.
#![tactic(auto)]

mod store;
mod turn;

pub use store::Store;
pub use turn::{idle_turn, keep_turn};
