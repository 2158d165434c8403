//! Which signals of a zone end just now, by its type.

ghost use Rattle.std.specs.Prelude.{◌≡◌, ◌+◌, ◌-◌, Some, slice_get};
ghost use Rattle.site_types.specs.Profile.{round_of};
ghost use Rattle.panel_rules.specs.Due.{DetectorSignals, SecondSignals};
ghost use Rattle.zone_signals.specs.Ended.{RoundSignals};
ghost use Rattle.zone_signals.specs.Telling.{TellsEnd};

use crate::known::Known;
use crate::signals::{detector_ends, detectors_end, pair_ends, point_ends, second_ends};
use site_types::{Rule, Zone};

/// Whether a signal of the zone ends now that counts from the beginning of a round.
pub fn round_ends(known: &Known, zone: usize, plan: &Zone) -> bool
    ensures { slice_get known.now.site.now.zones zone ≡ Some plan.now
        → TellsEnd RoundSignals known.now zone
        (known.now.tick - round_of known.now.site.now.format) result }
{
    match plan.rule {
        Rule::Plain => point_ends(known, zone),
        Rule::A { within, .. } => detectors_end(known, zone, within),
        Rule::B { within } => pair_ends(known, zone, plan.partner, within),
        Rule::C => point_ends(known, zone),
    }
}

/// Whether a signal of a single detector of the zone ends now.
pub fn alone_ends(known: &Known, zone: usize, plan: &Zone) -> bool
    ensures { slice_get known.now.site.now.zones zone ≡ Some plan.now
        → TellsEnd DetectorSignals known.now zone
        (known.now.tick - round_of known.now.site.now.format + 1) result }
{
    match plan.rule {
        Rule::Plain => false,
        Rule::A { verify, .. } => detector_ends(known, zone, verify),
        Rule::B { .. } => false,
        Rule::C => false,
    }
}

/// Whether a signal of a second point of the zone, which its outputs wait for, ends now.
pub fn release_ends(known: &Known, zone: usize, plan: &Zone) -> bool
    ensures { slice_get known.now.site.now.zones zone ≡ Some plan.now
        → TellsEnd SecondSignals known.now zone
        (known.now.tick - round_of known.now.site.now.format) result }
{
    match plan.rule {
        Rule::Plain => false,
        Rule::A { .. } => false,
        Rule::B { .. } => false,
        Rule::C => second_ends(known, zone, plan.partner),
    }
}
