//! The supplies of one panel: mains, standby battery, voltage and charger, and which of their faults are shown.
//!
//! Begin with [`Supply`]. It is told of each report by [`Supply::read`] and looks at the supplies once in a
//! tick by [`Supply::turn`]. A fault is shown where the supply was bad at each turn from some turn to the
//! latest one, and these two lie at least the site's wait apart. So with no wait a supply is shown at the
//! first turn that finds it bad, and a single turn that finds it sound begins the wait again; a report that
//! is taken back before the next turn was never there. [`Supply::faults`] tells what the latest turn showed.
//!
//! Contracts speak of all reports and turns so far: `StandsFor` joins a [`Supply`] to them, and `is_shown` of
//! specs/Supply says of them which fault is shown. No call takes memory, refuses, or takes a time that
//! depends on the site.
#![tactic(auto)]

mod supply;
mod watch;

pub use supply::Supply;
