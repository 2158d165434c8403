//! What comes to a panel that runs by itself over a connection: nothing, a frame, or a tick block with what befalls
//! it.
//!
//! [`read_input`] tells by the bytes, read to their end, which it is, or why they are refused: a [`NodeInput`]. Bytes
//! that begin with `F` are a frame's; `panel_frames` says which frames a panel may get and why others are refused.
//! All others are a tick block's, whose lines are read as those of a record, with one difference: a line that gives an
//! order, reports on a link or is an event of another panel is refused like one that names what the site hasn't. What
//! befalls a panel by itself is its own, and its turns have one order.
//!
//! [`own_tick_of_block`] does that alone, and [`is_own_event`] tells which events are a panel's own. What the tick is
//! that is expected, and what an accepted block brings about, is for whoever has the panel.
//!
//! [`read_whole`] reads a connection into a room that was taken before: to its end, or one byte more than a block may
//! have, by which it is known to be too long.
//!
//! No call takes memory, and each byte is read at most twice.
#![tactic(auto)]

mod blocks;
mod input;
mod octets;
mod own;
mod reading;

pub use blocks::own_tick_of_block;
pub use input::{NodeInput, read_input};
pub use own::is_own_event;
pub use reading::read_whole;
