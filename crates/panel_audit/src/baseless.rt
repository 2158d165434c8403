//! Outputs that are on and can have no cause.

ghost use Rattle.std.specs.Prelude.{◌≡◌, ◌<◌, length};
ghost use Rattle.site_types.specs.declared.site.Site.{Site as SiteOf};
ghost use Rattle.site_types.specs.Valid.{IsValid};
ghost use Rattle.cause_effect.specs.Stands.{IsPlanOf};
ghost use Rattle.asked_markers.specs.Solved.{GoesBy};
ghost use Rattle.panel_audit.specs.Places.{AreWritten};
ghost use Rattle.panel_audit.specs.Scans.{HaveHeard, HeardSolved, IsHeardAt, ScansBaseless, TellsBaseless};

use crate::faces_shown::{is_on, outputs_of};
use crate::lowest::lowest_marked;
use crate::numbered::Numbered;
use asked_markers::AskedMarkers;
use cause_effect::{Facts, Plan};
use face_text::Face;
use joined_panels::JoinedPanels;
use shown_causes::{ShownCauses, can_be_on};
use site_types::Site;

/// The markers of each panel before anything may have been heard.
pub(crate) fn nothing_heard(plan: &Plan) -> [AskedMarkers; 8]
    ensures { (site : SiteOf) → IsPlanOf site plan.now → HeardSolved site result }
{
    let facts = Facts {
        zones: [0; 8],
        manual: [0; 8],
        faults: 0,
    };
    [AskedMarkers::new(plan, &facts); 8]
}

/// The place of the first of these. The markers are those of each panel, as they were solved last.
pub(crate) fn baseless_output(
    site: &Site,
    plan: &Plan,
    outputs: &[Numbered],
    marks: &mut [bool],
    causes: &ShownCauses,
    joined: &JoinedPanels,
    faces: &[Face],
    heard: &mut [AskedMarkers; 8],
) -> Option<usize>
    requires valid { IsValid site.now }
    requires plan { IsPlanOf site.now plan.now }
    requires size { length marks.old ≡ length outputs.now }
    ensures size { length marks.new ≡ length outputs.now }
    ensures solved { HeardSolved site.now heard.old → HeardSolved site.now heard.new }
    ensures scans { ScansBaseless site.now outputs.now causes.now joined.now faces.now heard.old
        result }
{
    hear_each(heard, site, plan, causes, joined, faces);
    mark_baseless(marks, site, faces, heard);
    lowest_marked(outputs, marks)
}

// The markers of each panel that shows an output as on are solved over all that the panel may have heard.
fn hear_each(
    heard: &mut [AskedMarkers; 8],
    site: &Site,
    plan: &Plan,
    causes: &ShownCauses,
    joined: &JoinedPanels,
    faces: &[Face],
)
    requires valid { IsValid site.now }
    requires plan { IsPlanOf site.now plan.now }
    ensures { HeardSolved site.now heard.old
        → HaveHeard site.now causes.now joined.now faces.now heard.new }
{
    for place in 0..8_u8 {
        let asked = &mut heard[place as usize];
        hear(asked, site, plan, causes, joined, faces, place);
    }
}

// Goes over the markers of the panel at a place by what it may have heard, where its face shows an output.
fn hear(
    asked: &mut AskedMarkers,
    site: &Site,
    plan: &Plan,
    causes: &ShownCauses,
    joined: &JoinedPanels,
    faces: &[Face],
    place: u8,
)
    requires valid { IsValid site.now }
    requires plan { IsPlanOf site.now plan.now }
    requires place { place < 8 }
    ensures { GoesBy site.now asked.old.facts asked.old
        → IsHeardAt site.now causes.now joined.now faces.now place asked.new }
{
    if outputs_of(faces, place) != 0 {
        let facts = causes.facts_heard(site, joined, place + 1);
        asked.go_over(plan, &facts);
    }
}

// Marks the outputs that are on and can have no cause.
fn mark_baseless(marks: &mut [bool], site: &Site, faces: &[Face], heard: &[AskedMarkers; 8])
    requires { IsValid site.now }
    ensures size { length marks.new ≡ length marks.old }
    ensures marks { AreWritten (TellsBaseless site.now faces.now heard.now) (length marks.new)
        marks.new }
{
    for place in 0..marks.len() {
        marks[place] = is_baseless(site, faces, heard, place);
    }
}

fn is_baseless(site: &Site, faces: &[Face], heard: &[AskedMarkers; 8], place: usize) -> bool
    requires { IsValid site.now }
    ensures { TellsBaseless site.now faces.now heard.now place result }
{
    match site.outputs.get(place) {
        None => false,
        Some(output) => {
            is_on(faces, output) && !can_be_on(&heard[output.panel as usize - 1], output)
        }
    }
}
