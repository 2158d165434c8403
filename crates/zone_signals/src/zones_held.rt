//! Points of the zone at a place that are held for a round.

ghost use Rattle.std.specs.Prelude.{◌≤◌, ◌<◌, None};
ghost use Rattle.site_types.specs.declared.site.Site.{Site as SiteOf};
ghost use Rattle.site_types.specs.Valid.{IsValid};
ghost use Rattle.zone_signals.specs.Rounds.{HasDetectorThrough, HasHeldAfter, HasTwoHeldAfter};
ghost use Rattle.zone_signals.specs.Telling.{TellsOfPoints};

use crate::kind::Kind;
use crate::known::Known;
use crate::members::Members;
use crate::zone_rounds::{has_detector_since, has_held_after, has_two_held_after};

/// Whether a point of the zone is held for a round that begins after a tick.
pub fn one_held(known: &Known, zone: usize, kind: Kind, after: u64) -> bool
    ensures { TellsOfPoints (λ kept done moments. HasHeldAfter known.now.site.now kept done moments
        kind None zone after known.now.tick) known.now result }
{
    has_held_after(
        known.site,
        places_of(known.members, zone),
        known.runs,
        kind,
        None,
        after,
        known.tick,
    )
}

/// Whether two points of the zone are held for a round that begins after a tick, the round of the second one after a
/// later tick.
pub fn two_held(known: &Known, zone: usize, kind: Kind, after: u64, later: u64) -> bool
    ensures { TellsOfPoints (λ kept done moments. HasTwoHeldAfter known.now.site.now kept done
        moments kind zone after later known.now.tick) known.now result }
{
    has_two_held_after(
        known.site,
        places_of(known.members, zone),
        known.runs,
        kind,
        after,
        later,
        known.tick,
    )
}

/// Whether a detector signals at each tick from one on until now.
pub fn one_lasts(known: &Known, zone: usize, first: u64) -> bool
    ensures { 1 ≤ first → first < known.now.tick
        → TellsOfPoints (λ kept done moments. HasDetectorThrough known.now.site.now kept done
        moments zone first known.now.tick) known.now result }
{
    has_detector_since(
        known.site,
        places_of(known.members, zone),
        known.runs,
        first,
        known.tick,
    )
}

ghost use Rattle.zone_signals.specs.Kinds.{AreAllMembers, AreMembers};

// The places of a zone's points, of which there are none for a zone that the site hasn't.
fn places_of(members: &[Members], zone: usize) -> &[usize]
    ensures { (site : SiteOf) → IsValid site → AreAllMembers site members.now
        → AreMembers site zone result.now }
{
    match members.get(zone) {
        None => &[],
        Some(own) => &own.places,
    }
}
