//! Points of a zone that are held for a round. A zone's points are given as a list of their places.

ghost use Rattle.std.specs.Prelude.{◌≡◌, ◌↔◌, ◌≤◌, ◌<◌, ℕ, List, true};
ghost use Rattle.site_types.specs.declared.retained.Retained.{Retained as RetainedOf};
ghost use Rattle.site_types.specs.Done.{Done};
ghost use Rattle.panel_rules.specs.Moments.{Moment};
ghost use Rattle.zone_signals.specs.Kinds.{AreMembers};
ghost use Rattle.zone_signals.specs.Rounds.{AreRuns, HasDetectorThrough, HasHeldAfter, HasTwoHeldAfter, TellsRuns};

use crate::kind::Kind;
use crate::rounds::{is_held_after, signals_since};
use point_runs::PointRun;
use site_types::Site;

/// Whether a point of the zone, besides one, is held for a round that begins after a tick.
pub fn has_held_after(
    site: &Site,
    members: &[usize],
    runs: &[PointRun],
    kind: Kind,
    besides: Option<usize>,
    after: u64,
    now: u64,
) -> bool
    ensures { (kept : RetainedOf) (done : List Done) (moments : List Moment) (zone : ℕ)
        → AreRuns site.now kept done moments now runs.now → AreMembers site.now zone members.now
        → (result ≡ true) ↔ HasHeldAfter site.now kept done moments kind besides zone after now }
{
    for k in 0..members.len() {
        if is_other(besides, members[k])
            && is_held_after(site, runs, kind, after, now, members[k])
        {
            return true;
        }
    }
    false
}

/// Whether two points of the zone are held for a round that begins after a tick, the round of the second one after a
/// later tick.
pub fn has_two_held_after(
    site: &Site,
    members: &[usize],
    runs: &[PointRun],
    kind: Kind,
    after: u64,
    later: u64,
    now: u64,
) -> bool
    ensures { (kept : RetainedOf) (done : List Done) (moments : List Moment) (zone : ℕ)
        → AreRuns site.now kept done moments now runs.now → AreMembers site.now zone members.now
        → (result ≡ true) ↔ HasTwoHeldAfter site.now kept done moments kind zone after later now }
{
    for k in 0..members.len() {
        if is_held_after(site, runs, kind, later, now, members[k])
            && has_held_after(site, members, runs, kind, Some(members[k]), after, now)
        {
            return true;
        }
    }
    false
}

/// Whether a detector of the zone signals at each tick from one on until now.
pub fn has_detector_since(
    site: &Site,
    members: &[usize],
    runs: &[PointRun],
    first: u64,
    now: u64,
) -> bool
    ensures { (zone : ℕ) → AreMembers site.now zone members.now → 1 ≤ first → first < now
        → TellsRuns (λ kept done moments. HasDetectorThrough site.now kept done moments zone first
        now) site.now runs.now now result }
{
    for k in 0..members.len() {
        if signals_since(site, runs, first, now, members[k]) {
            return true;
        }
    }
    false
}

ghost use Rattle.zone_signals.specs.Kinds.{is_besides};

fn is_other(besides: Option<usize>, place: usize) -> bool
    ensures { result ≡ is_besides besides place }
{
    match besides {
        None => true,
        Some(other) => other != place,
    }
}
