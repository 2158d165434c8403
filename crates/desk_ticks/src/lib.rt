//! A tick block, as a desk is given one: the line of a tick and the lines of that tick, each with its line end.
//!
//! [`tick_of_block`] answers which tick a block begins where all its lines are accepted, whatever the number of that
//! tick, or the first line that is refused and why: `verdict_of` of specs/Blocks. It reads the block with `LineReader`
//! of `record_lines`, does nothing with its lines and takes no memory. Whoever acts by an accepted block reads the
//! lines that [`behind_first_line`] gives with the reader that [`reader_behind_tick`] gives.
#![tactic(auto)]

mod block_refusal;
mod checking;
mod numbers;
mod stops;

pub use block_refusal::BlockRefusal;
pub use checking::{MOST_BLOCK_BYTES, behind_first_line, reader_behind_tick, tick_of_block};
pub use stops::named_tick;
