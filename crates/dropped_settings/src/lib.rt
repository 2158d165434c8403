//! What a move to a changed site tells: which settings that were kept of the old site the new one doesn't take, and how
//! many are set in the new one.
//!
//! Begin with [`moved_text`], the whole text. A setting of a point, a zone or an output goes by its name and kind: it
//! is dropped where it is set and the new site has no such thing of that name. Delays and counters go by panel, and are
//! dropped with the panels that the new site hasn't. `dropped_lines` of specs/Dropped says which lines these are and in
//! which order, `moved_line` of specs/Moved counts what the new site begins with.
//!
//! The text is made in steps that grow with the number of names of the old site times the logarithm of the new site's.
#![tactic(auto)]

mod counting;
mod dropping;
mod kind;
mod lines;
mod moving;
mod settings;
mod telling;

pub use moving::moved_text;
