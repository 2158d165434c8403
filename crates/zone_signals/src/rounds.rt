//! Points that are held for a round, by the runs of ticks in which they signal.

ghost use Rattle.std.specs.Prelude.{◌≡◌, ◌↔◌, ◌≤◌, ◌<◌, List, true, length};
ghost use Rattle.site_types.specs.declared.retained.Retained.{Retained as RetainedOf};
ghost use Rattle.site_types.specs.Done.{Done};
ghost use Rattle.panel_rules.specs.Moments.{Moment};
ghost use Rattle.zone_signals.specs.Kinds.{fits_kind};
ghost use Rattle.zone_signals.specs.Rounds.{AreRuns, DetectorThrough, IsHeldAfter, IsLastHeld, TellsRuns};

use crate::kind::Kind;
use point_runs::PointRun;
use site_types::Site;

/// Whether a point is of a kind.
pub fn fits(site: &Site, kind: Kind, place: usize) -> bool
    ensures { place < length site.now.points → result ≡ fits_kind kind site.now place }
{
    match site.points.get(place) {
        None => false,
        Some(point) => match kind {
            Kind::Any => true,
            Kind::Detector => !point.manual,
            Kind::CallPoint => point.manual,
        },
    }
}

/// The last tick from which on a point was held for a round that has ended, 0 where there is none.
pub fn last_held(site: &Site, runs: &[PointRun], place: usize, now: u64) -> u64
    ensures { (kept : RetainedOf) (done : List Done) (moments : List Moment)
        → AreRuns site.now kept done moments now runs.now → place < length site.now.points
        → IsLastHeld site.now kept done moments place now result }
{
    match runs.get(place) {
        None => 0,
        Some(run) => run.held_at(site.profile().round(), now.saturating_sub(1)),
    }
}

/// Whether a point is of a kind, and held for a round that begins after a tick and has ended.
pub fn is_held_after(
    site: &Site,
    runs: &[PointRun],
    kind: Kind,
    after: u64,
    now: u64,
    place: usize,
) -> bool
    ensures { (kept : RetainedOf) (done : List Done) (moments : List Moment)
        → AreRuns site.now kept done moments now runs.now → place < length site.now.points
        → (result ≡ true) ↔ IsHeldAfter site.now kept done moments kind after now place }
{
    if !fits(site, kind, place) {
        return false;
    }
    last_held(site, runs, place, now) > after
}

/// Whether a detector signals at each tick from one on until now.
pub fn signals_since(site: &Site, runs: &[PointRun], first: u64, now: u64, place: usize) -> bool
    ensures { place < length site.now.points → 1 ≤ first → first < now
        → TellsRuns (λ kept done moments. DetectorThrough site.now kept done moments place first
        now) site.now runs.now now result }
{
    if !fits(site, Kind::Detector, place) {
        return false;
    }
    match runs.get(place) {
        None => false,
        Some(run) => run.since > 0 && run.since <= first,
    }
}
