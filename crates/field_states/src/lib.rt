//! What the points of a site and the cables of its loops are at, told event by event.
//!
//! Begin with [`FieldStates`]: it is made for a site, takes one event after another, and answers for each point whether
//! it is in alarm and reached by its loop: what `SignalsAt` of `panel_rules` asks of a point that isn't blocked.
//!
//! [`FieldStates::new`] alone takes memory. [`FieldStates::take`] takes the same few steps but at a report on a cable,
//! where it goes over the pieces of that loop; [`FieldStates::sounds`] looks at one point, and for one in alarm at the
//! list of loops.
#![tactic(auto)]

mod field_states;
mod lines;

pub use field_states::FieldStates;
