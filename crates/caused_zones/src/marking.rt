//! Which answers of a tick count.

ghost use Rattle.std.specs.Prelude.{◌≡◌, ◌≤◌, length};
ghost use Rattle.caused_zones.specs.Marks.{AreEachAfter, after_answers, passes_below, has_run as has_run_at};
ghost use Rattle.caused_zones.specs.Marks.{is_asked_in as is_asked_by_round};

use crate::point_mark::PointMark;
use point_runs::PointRun;
use site_types::Site;
use tick_units::Tick;

/// Whether some point signals.
pub fn some_signal(runs: &[PointRun]) -> bool
    ensures { result ≡ passes_below (has_run_at runs.now) (length runs.now) }
{
    for place in 0..runs.len() {
        if has_run(runs, place) {
            return true;
        }
    }
    false
}

/// Takes the answers of a tick.
pub fn note_answers(marks: &mut [PointMark], site: &Site, round: u64, now: Tick, runs: &[PointRun])
    requires { 1 ≤ round }
    ensures { AreEachAfter (after_answers site.now round now.0 runs.now) marks.old marks.new }
{
    for place in 0..marks.len() {
        if has_run(runs, place) && is_asked(site, round, now, place) {
            marks[place] = marks[place].counted(round, now.0);
        }
    }
}

fn has_run(runs: &[PointRun], place: usize) -> bool
    ensures { result ≡ has_run_at runs.now place }
{
    match runs.get(place) {
        None => false,
        Some(run) => run.since > 0,
    }
}

// Whether a point is asked in a tick.
fn is_asked(site: &Site, round: u64, now: Tick, place: usize) -> bool
    requires { 1 ≤ round }
    ensures { result ≡ is_asked_by_round site.now round now.0 place }
{
    match site.points.get(place) {
        None => false,
        Some(point) => now.0 % round == (point.address.saturating_sub(1) / 8) as u64,
    }
}
