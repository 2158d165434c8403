//! Whether the sounders of a panel are quiet: what a silence does, and what ends it.
//!
//! Begin with [`Silence`]. A turn asks [`Silence::quiet`] once in a tick and hands it the zones that are
//! released then, of all panels. A silence takes the set of the latest turn. From the next turn on the
//! sounders are quiet for as long as some zone is released and every released zone was in that set: a zone
//! that goes back ends nothing, a new zone or none at all ends the silence for good, and so does a resound.
//!
//! Contracts speak of all calls so far: `StandsFor` joins a [`Silence`] to them, and `is_quiet` of
//! specs/Quiet says of them whether the sounders are quiet. No call takes memory or refuses, and a turn looks
//! at the eight masks of a set, whatever the site.
#![tactic(auto)]

mod silence;
mod zones;

pub use silence::Silence;
