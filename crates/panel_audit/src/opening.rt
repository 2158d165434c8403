//! What was retained, as the faces at opening show it.

ghost use Rattle.std.specs.Prelude.{◌≡◌};
ghost use Rattle.audit_rules.specs.ToldDone.{retained_by};
ghost use Rattle.face_reading.specs.Reading.{face_at};

use face_text::Face;
use site_types::{PointSet, Retained, mask_from_8};

/// What the panels of a site kept, by their faces at opening.
pub(crate) fn opened(faces: &[Face]) -> Retained
    ensures { result ≡ retained_by faces.now }
{
    Retained {
        points: points_off(faces),
        zones: zones_off(faces),
        outputs: outputs_off(faces),
        delays_off: delays_off(faces),
        counters: counters(faces),
        tests: tests(faces),
    }
}

fn points_off(faces: &[Face]) -> [PointSet; 8]
    ensures { result ≡ (retained_by faces.now).points }
{
    [
        face_of(faces, 1).points_off,
        face_of(faces, 2).points_off,
        face_of(faces, 3).points_off,
        face_of(faces, 4).points_off,
        face_of(faces, 5).points_off,
        face_of(faces, 6).points_off,
        face_of(faces, 7).points_off,
        face_of(faces, 8).points_off,
    ]
}

fn zones_off(faces: &[Face]) -> [u32; 8]
    ensures { result ≡ (retained_by faces.now).zones }
{
    [
        face_of(faces, 1).zones_off,
        face_of(faces, 2).zones_off,
        face_of(faces, 3).zones_off,
        face_of(faces, 4).zones_off,
        face_of(faces, 5).zones_off,
        face_of(faces, 6).zones_off,
        face_of(faces, 7).zones_off,
        face_of(faces, 8).zones_off,
    ]
}

fn outputs_off(faces: &[Face]) -> [u32; 8]
    ensures { result ≡ (retained_by faces.now).outputs }
{
    [
        face_of(faces, 1).outputs_off,
        face_of(faces, 2).outputs_off,
        face_of(faces, 3).outputs_off,
        face_of(faces, 4).outputs_off,
        face_of(faces, 5).outputs_off,
        face_of(faces, 6).outputs_off,
        face_of(faces, 7).outputs_off,
        face_of(faces, 8).outputs_off,
    ]
}

fn delays_off(faces: &[Face]) -> u8
    ensures { result ≡ (retained_by faces.now).delays_off }
{
    mask_from_8(&[
        face_of(faces, 1).delays_off,
        face_of(faces, 2).delays_off,
        face_of(faces, 3).delays_off,
        face_of(faces, 4).delays_off,
        face_of(faces, 5).delays_off,
        face_of(faces, 6).delays_off,
        face_of(faces, 7).delays_off,
        face_of(faces, 8).delays_off,
    ])
}

fn counters(faces: &[Face]) -> [u32; 8]
    ensures { result ≡ (retained_by faces.now).counters }
{
    [
        face_of(faces, 1).counter,
        face_of(faces, 2).counter,
        face_of(faces, 3).counter,
        face_of(faces, 4).counter,
        face_of(faces, 5).counter,
        face_of(faces, 6).counter,
        face_of(faces, 7).counter,
        face_of(faces, 8).counter,
    ]
}

fn tests(faces: &[Face]) -> [u32; 8]
    ensures { result ≡ (retained_by faces.now).tests }
{
    [
        face_of(faces, 1).test,
        face_of(faces, 2).test,
        face_of(faces, 3).test,
        face_of(faces, 4).test,
        face_of(faces, 5).test,
        face_of(faces, 6).test,
        face_of(faces, 7).test,
        face_of(faces, 8).test,
    ]
}

// The face of a panel: an empty one where there is none.
fn face_of(faces: &[Face], panel: u8) -> Face
    ensures { result ≡ face_at faces.now panel }
{
    match faces.get(panel.saturating_sub(1) as usize) {
        None => Face::empty(panel),
        Some(face) => *face,
    }
}
