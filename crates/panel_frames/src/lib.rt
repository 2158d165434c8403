//! The bytes of a frame that one panel hands to a neighbour, printed and read.
//!
//! A frame has 136 bytes, numbers with their greatest byte first: `FW`, the 32 bytes of the site's digest, the
//! number of the panel that sends it, the group of four panels whose words it has, and those four words of 25
//! bytes each. A word is its stamp in eight bytes, its four masks of zones in four bytes each, and one byte for
//! its fault, 0 or 1. A mask names zones that the word's panel has; where there is no such panel, and behind a
//! stamp of 0, all bytes are zero.
//!
//! [`print_frame`] writes those bytes, and [`read_frame`] reads them at a panel, or says by a [`FrameRefusal`] why
//! not: the first cause that applies, in the order of its variants. Both are pinned by `specs/`: `frame_bytes` and
//! `frame_in` say which bytes and which frame, `refusal_at` which refusal, and `IsFrame` which frames are in the
//! grammar. [`printed_frames_are_read`], [`read_bytes_are_printed`] and [`read_frames_are_in_the_grammar`] are laws:
//! no two frames have the same bytes, and no two texts of bytes are read as one frame.
//!
//! No call takes memory; printing takes the same steps always, and reading goes once over the site's zones for
//! each word.
#![tactic(auto)]

mod frame_refusal;
mod fullest;
mod laws;
mod layout;
mod print;
mod read;

pub use frame_refusal::FrameRefusal;
pub use laws::{printed_frames_are_read, read_bytes_are_printed, read_frames_are_in_the_grammar};
pub use layout::FRAME_BYTES;
pub use print::print_frame;
pub use read::read_frame;
