//! Since when each zone has a signal that is to be shown, tick by tick, for an auditor.
//!
//! What a signal is, and from which tick on it counts, says `panel_rules` in specs/Due. Begin with [`ZoneSignals`]: it
//! is told of one tick after another, with the runs of ticks at which each point signals (`point_runs`) as they stand
//! after the tick before, and looks the operations up in a list of all that were done, those of later ticks among
//! them. [`ZoneSignals::settled`], [`ZoneSignals::settled_out`] and [`ZoneSignals::settled_by_hand`] tell of a zone the
//! least tick from which on a signal counts, of all, of those for outputs and of those by hand: the zone is due exactly
//! where that one is.
//!
//! Each kind of signal is a function of signals.rt that tells whether one ends just now: a call point, one point, one
//! detector, two detectors, a pair, a second point. A zone keeps the first one of each kind that ended, until its next
//! floor.
//!
//! [`ZoneSignals::new`] alone takes memory. A tick looks once at each run and each zone, and goes over the points of
//! those zones alone of which a point has just been held for a round, and of their partners.
#![tactic(auto)]

mod floors;
mod kind;
mod known;
mod marks;
mod members;
mod pairs;
mod rounds;
mod signals;
mod undone;
mod zone_ends;
mod zone_floor;
mod zone_rounds;
mod zone_settled;
mod zone_signals;
mod zones_held;

pub use zone_signals::ZoneSignals;
