//! Outputs that are due to be on and aren't.

ghost use Rattle.std.specs.Prelude.{◌≡◌, length};
ghost use Rattle.site_types.specs.Valid.{IsValid};
ghost use Rattle.panel_audit.specs.Places.{AreWritten};
ghost use Rattle.panel_audit.specs.Scans.{ScansDark, TellsDark};

use crate::faces_shown::is_on;
use crate::lowest::lowest_marked;
use crate::numbered::Numbered;
use due_outputs::DueOutputs;
use excused_outputs::ExcusedOutputs;
use face_text::Face;
use site_types::Site;

/// The place of the first of these.
pub(crate) fn dark_output(
    site: &Site,
    outputs: &[Numbered],
    marks: &mut [bool],
    dues: &DueOutputs,
    excused: &ExcusedOutputs,
    faces: &[Face],
) -> Option<usize>
    requires valid { IsValid site.now }
    requires size { length marks.old ≡ length outputs.now }
    ensures size { length marks.new ≡ length outputs.now }
    ensures scans { ScansDark site.now outputs.now dues.now excused.now faces.now result }
{
    mark_dark(marks, site, dues, excused, faces);
    lowest_marked(outputs, marks)
}

// Marks the outputs that are due to be on and aren't.
fn mark_dark(
    marks: &mut [bool],
    site: &Site,
    dues: &DueOutputs,
    excused: &ExcusedOutputs,
    faces: &[Face],
)
    requires { IsValid site.now }
    ensures size { length marks.new ≡ length marks.old }
    ensures marks { AreWritten (TellsDark site.now dues.now excused.now faces.now)
        (length marks.new) marks.new }
{
    for place in 0..marks.len() {
        marks[place] = is_dark(site, dues, excused, faces, place);
    }
}

fn is_dark(
    site: &Site,
    dues: &DueOutputs,
    excused: &ExcusedOutputs,
    faces: &[Face],
    place: usize,
) -> bool
    requires { IsValid site.now }
    ensures { TellsDark site.now dues.now excused.now faces.now place result }
{
    match site.outputs.get(place) {
        None => false,
        Some(output) => dues.is_due_on(excused, place, output) && !is_on(faces, output),
    }
}
