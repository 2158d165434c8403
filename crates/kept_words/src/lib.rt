//! The words that a panel keeps where it runs by itself, and those of others come in frames.
//!
//! Begin with [`KeptWords`]. It keeps a word for each panel of the ring: of its own panel the latest that it was
//! handed ([`KeptWords::keep_own`]), of each other panel the newest that came in a frame
//! ([`KeptWords::receive`]), and of two with one stamp the one that came first. Words of its own panel in frames
//! aren't taken. [`KeptWords::frame`] is what it hands to its neighbours in a tick. No report tells it of a link:
//! [`KeptWords::links_down`] counts one as down where no frame came over it for too long, and
//! [`KeptWords::silent`] tells of which panels nothing newer came for too long.
//!
//! Contracts speak of all that came: `KeepsArrived` joins a [`KeptWords`] to the frames that were received and the own
//! words that were handed in, and [`kept_is_first_newest`] is the law that what is kept of another panel is, of
//! all its words that came, the one with the greatest stamp and the first of those.
//!
//! No call takes memory. A frame costs four comparisons, and what is told eight.
#![tactic(auto)]

mod kept_words;
mod laws;

pub use kept_words::KeptWords;
pub use laws::kept_is_first_newest;
