//! The events of a record, parted by ticks.
//!
//! [`TickEvents`] is made of the lines of a record. What it has for a tick is what the rules of an audit take for that
//! tick's events (`ticks_of_record` of `audit_rules`), in their order; a code that an operation has is the same word,
//! however it is held.
//!
//! [`TickEvents::of_lines`] alone takes memory; [`TickEvents::of_tick`] hands out a slice.
#![tactic(auto)]

mod tick_events;

pub use tick_events::TickEvents;
