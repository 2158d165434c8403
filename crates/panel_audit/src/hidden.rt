//! Zones that are due at a panel that doesn't show them.

ghost use Rattle.std.specs.Prelude.{◌≡◌, ◌≤◌, length};
ghost use Rattle.panel_audit.specs.Places.{AreWritten, IsLeftAt};
ghost use Rattle.panel_audit.specs.Scans.{ScansHidden};

use crate::faces_shown::zones_of;
use crate::found::Found;
use crate::lowest::lowest_marked;
use crate::numbered::Numbered;
use due_zones::DueZones;
use face_text::Face;
use site_types::Site;

/// The first panel with such a zone, and of its zones the first one.
pub(crate) fn hidden_zone(
    site: &Site,
    zones: &[Numbered],
    marks: &mut [bool],
    due: &[DueZones; 8],
    faces: &[Face],
) -> Option<Found>
    requires panels { site.now.panels ≤ 8 }
    requires size { length marks.old ≡ length zones.now }
    ensures size { length marks.new ≡ length zones.now }
    ensures scans { ScansHidden site.now zones.now due.now faces.now result }
{
    for place in 0..site.panels {
        let shown = zones_of(faces, place);
        mark_hidden(marks, zones, &due[place as usize].shown, &shown);
        if let Some(first) = lowest_marked(zones, marks) {
            return Some(Found {
                panel: place + 1,
                place: first,
            });
        }
    }
    None
}

// Marks the zones that are in some masks and not in others.
fn mark_hidden(marks: &mut [bool], zones: &[Numbered], due: &[u32; 8], shown: &[u32; 8])
    ensures size { length marks.new ≡ length marks.old }
    ensures marks { AreWritten (IsLeftAt zones.now due.now shown.now) (length marks.new) marks.new }
{
    for place in 0..marks.len() {
        marks[place] = is_left_at(zones, place, due, shown);
    }
}

fn is_left_at(zones: &[Numbered], place: usize, due: &[u32; 8], shown: &[u32; 8]) -> bool
    ensures { IsLeftAt zones.now due.now shown.now place result }
{
    match zones.get(place) {
        None => false,
        Some(zone) => zone.is_in(due) && !zone.is_in(shown),
    }
}
