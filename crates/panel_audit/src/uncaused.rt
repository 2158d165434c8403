//! Zones that a panel shows and that can have no cause.

ghost use Rattle.std.specs.Prelude.{◌≡◌, ◌≤◌, length};
ghost use Rattle.site_types.specs.Valid.{IsValid};
ghost use Rattle.panel_audit.specs.Places.{AreWritten};
ghost use Rattle.panel_audit.specs.Scans.{MarksUncaused, ScansUncaused};

use crate::faces_shown::zones_of;
use crate::found::Found;
use crate::lowest::lowest_marked;
use crate::numbered::Numbered;
use face_text::Face;
use joined_panels::JoinedPanels;
use shown_causes::ShownCauses;
use site_types::Site;

/// The first panel with such a zone, and of its zones the first one.
pub(crate) fn uncaused_zone(
    site: &Site,
    zones: &[Numbered],
    marks: &mut [bool],
    causes: &ShownCauses,
    joined: &JoinedPanels,
    faces: &[Face],
) -> Option<Found>
    requires valid { IsValid site.now }
    requires size { length marks.old ≡ length zones.now }
    ensures size { length marks.new ≡ length zones.now }
    ensures scans { ScansUncaused site.now zones.now causes.now joined.now faces.now result }
{
    for place in 0..site.panels {
        let shown = zones_of(faces, place);
        mark_uncaused(marks, zones, site, causes, joined, place + 1, &shown);
        if let Some(first) = lowest_marked(zones, marks) {
            return Some(Found {
                panel: place + 1,
                place: first,
            });
        }
    }
    None
}

// Marks the zones that are shown at a panel and can't be.
fn mark_uncaused(
    marks: &mut [bool],
    zones: &[Numbered],
    site: &Site,
    causes: &ShownCauses,
    joined: &JoinedPanels,
    panel: u8,
    shown: &[u32; 8],
)
    requires valid { IsValid site.now }
    requires panel { (1 ≤ panel) × (panel ≤ 8) }
    ensures size { length marks.new ≡ length marks.old }
    ensures marks { AreWritten
        (MarksUncaused site.now zones.now causes.now joined.now panel shown.now)
        (length marks.new) marks.new }
{
    for place in 0..marks.len() {
        marks[place] = is_uncaused(zones, place, site, causes, joined, panel, shown);
    }
}

fn is_uncaused(
    zones: &[Numbered],
    place: usize,
    site: &Site,
    causes: &ShownCauses,
    joined: &JoinedPanels,
    panel: u8,
    shown: &[u32; 8],
) -> bool
    requires valid { IsValid site.now }
    requires panel { (1 ≤ panel) × (panel ≤ 8) }
    ensures { MarksUncaused site.now zones.now causes.now joined.now panel shown.now place result }
{
    match zones.get(place) {
        None => false,
        Some(zone) => zone.is_in(shown) && !causes.can_be_shown(site, joined, panel, place),
    }
}
