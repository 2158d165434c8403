//! Which panels of a ring are joined, since when, and when they last were for long.
//!
//! Begin with [`JoinedPanels::new`], and tell it of each tick's events by [`JoinedPanels::take_tick`]. Two panels
//! are joined in a span of ticks where one of the two ways round the ring between them has all its links up at
//! each of its ticks. [`JoinedPanels::are_joined_since`] answers for a span that ends now,
//! [`JoinedPanels::latest_window`] tells the latest span that is long enough for a word to come from one panel to
//! the other and to act there.
//!
//! Contracts speak of all ticks so far, as definitions of panels do: `AreJoined` of what befell in them. A tick in
//! which no link changes is taken in a time that doesn't depend on the ring; one in which a link changes looks once
//! at each way, of which there are at most 64. No call takes memory.
#![tactic(auto)]

mod joined_panels;
mod links;
mod way;
mod ways;

pub use joined_panels::JoinedPanels;
