//! Which zones are caused to be in alarm, tick by tick, and since when they aren't.
//!
//! A zone is caused at a tick where an answer by then confirmed it and nothing has undone that: `IsCausedAt` of
//! `panel_rules`, over all ticks so far, and `IsCausedByHand` where a manual call point did it. Begin with
//! [`CausedZones`]: it is made for a site, is told of one tick after another, and has for each zone the latest tick at
//! which it was caused. No panel is run: an answer counts exactly where a point is asked while it signals, so the
//! runs of `signal_points` tell all that there is to know of answers.
//!
//! [`CausedZones::new`] alone takes memory. [`CausedZones::take_tick`] goes over all points only where some point
//! signals or an operation undoes something.
#![tactic(auto)]

mod cause;
mod caused_parts;
mod caused_zones;
mod judging;
mod marked;
mod marking;
mod point_mark;
mod undoing;

pub use caused_zones::CausedZones;
