//! Whether two faces show the same of whole sections of the page.

ghost use Rattle.std.specs.Prelude.{◌≡◌, true};
ghost use Rattle.face_text.specs.Faces.{ShowSameRest};

use crate::face::Face;

/// Whether two faces have the same zones in alarm.
pub fn has_same_zones(before: &Face, after: &Face) -> bool
    ensures { result ≡ true → before.now.zones ≡ after.now.zones }
{
    before.zones == after.zones
}

/// Whether two faces have the same first states.
pub fn has_same_firsts(before: &Face, after: &Face) -> bool
    ensures { result ≡ true → before.now.firsts ≡ after.now.firsts }
{
    before.firsts == after.firsts
}

/// Whether two faces have the same faults.
pub fn has_same_faults(before: &Face, after: &Face) -> bool
    ensures { result ≡ true → before.now.faults ≡ after.now.faults }
{
    before.faults == after.faults
}

/// Whether two faces have the same outputs, disablements of things, and zones in test.
pub fn has_same_rest(before: &Face, after: &Face) -> bool
    ensures { result ≡ true → ShowSameRest before.now after.now }
{
    before.outputs == after.outputs
        && before.confirmed == after.confirmed
        && before.points_off == after.points_off
        && before.zones_off == after.zones_off
        && before.outputs_off == after.outputs_off
        && before.test == after.test
}
