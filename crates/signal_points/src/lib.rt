//! Which points of a site signal, tick by tick.
//!
//! A point signals at a tick where it is in alarm, reached by its loop and not blocked: `SignalsAt` of `panel_rules`,
//! which [`signals_are_told`] says of the test that stands in specs/Signalling. Begin with [`SignalPoints`]: it is made
//! for a site and what was retained, is told of one tick after another, and has for each point since when it has
//! signalled without a gap, and the last tick from which on it signalled for a whole round.
//!
//! [`SignalPoints::new`] alone takes memory. [`SignalPoints::take_tick`] looks at each point once where an event speaks
//! of a point or a cable or an operation comes into force, and at none in any other tick.
#![tactic(auto)]

mod laws;
mod point_states;
mod signal_points;

pub use laws::{earlier_signals_stay, signals_are_told};
pub use signal_points::SignalPoints;
