//! What trials over whole records share: the ticks of a record, the moments of a tick, and answers as text.
//!
//! Only programs that try things stand on this crate, and it promises nothing.
#![tactic(auto)]

mod answers;
mod blocks;
mod ticks;

pub use answers::answers_of;
pub use blocks::{Block, blocks_of};
pub use ticks::push_tick;
