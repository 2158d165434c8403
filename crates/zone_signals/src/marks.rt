//! Marks on the zones some point of which has just been held for a round: no signal of others ends.

ghost use Rattle.std.specs.Prelude.{◌≡◌, false, length, Some, slice_get};
ghost use Rattle.zone_signals.specs.Marks.{AreMarkedFor, HasNoMark, MarksPoint};

use point_runs::PointRun;
use site_types::Site;

/// Marks the zones that have a point whose run lasts since a tick.
pub fn mark_zones(marks: &mut [bool], site: &Site, runs: &[PointRun], start: u64)
    ensures { AreMarkedFor site.now runs.now start marks.new (length runs.now) }
{
    clear(marks);
    for place in 0..runs.len() {
        mark_point(marks, site, &runs[place], place, start);
    }
}

fn clear(marks: &mut [bool]) {
    for zone in 0..marks.len() {
        marks[zone] = false;
    }
}

fn mark_point(marks: &mut [bool], site: &Site, run: &PointRun, place: usize, start: u64)
    ensures { MarksPoint site.now run.now place start marks.old marks.new }
{
    if run.since > 0 && run.since <= start {
        mark_zone_of(marks, site, place);
    }
}

ghost use Rattle.std.specs.Prelude.{ℕ};
ghost use Rattle.coincidence_rules.specs.Places.{is_of};

fn mark_zone_of(marks: &mut [bool], site: &Site, place: usize)
    ensures { (zone : ℕ) → slice_get marks.new zone ≡ Some false
        → (slice_get marks.old zone ≡ Some false) × (is_of site.now zone place ≡ false) }
{
    match site.points.get(place) {
        None => {}
        Some(point) => {
            let zone = point.zone as usize;
            if zone < marks.len() {
                marks[zone] = true;
            }
        }
    }
}

/// Whether a zone or its partner has a mark.
pub fn has_mark(marks: &[bool], zone: usize, partner: Option<u16>) -> bool
    ensures { result ≡ false → HasNoMark marks.now zone partner }
{
    is_marked(marks, zone) || is_partner_marked(marks, partner)
}

fn is_partner_marked(marks: &[bool], partner: Option<u16>) -> bool
    ensures { result ≡ false → (other : ℕ) → partner ≡ Some other
        → slice_get marks.now other ≡ Some false }
{
    match partner {
        None => false,
        Some(other) => is_marked(marks, other as usize),
    }
}

fn is_marked(marks: &[bool], zone: usize) -> bool
    ensures { result ≡ false → slice_get marks.now zone ≡ Some false }
{
    match marks.get(zone) {
        None => true,
        Some(mark) => *mark,
    }
}
