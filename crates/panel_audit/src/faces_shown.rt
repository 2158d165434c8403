//! What faces show of zones and outputs.

ghost use Rattle.std.specs.Prelude.{◌≡◌, ◌+◌, ◌-◌, ◌≤◌, slice_index_or};
ghost use Rattle.face_text.specs.Faces.{empty_face};
ghost use Rattle.site_types.specs.Bits.{has_bit};

use face_text::Face;
use site_types::{Output, has_bit_32};

/// The zones that the panel at a place shows, by their panels; none where there is no face of it.
pub(crate) fn zones_of(faces: &[Face], place: u8) -> [u32; 8]
    ensures { result ≡ (slice_index_or faces.now place (empty_face (place + 1))).zones }
{
    match faces.get(place as usize) {
        None => [0; 8],
        Some(face) => face.zones,
    }
}

/// The outputs that the panel at a place shows as on.
pub(crate) fn outputs_of(faces: &[Face], place: u8) -> u32
    ensures { result ≡ (slice_index_or faces.now place (empty_face (place + 1))).outputs }
{
    match faces.get(place as usize) {
        None => 0,
        Some(face) => face.outputs,
    }
}

/// Whether an output is on by these faces.
pub(crate) fn is_on(faces: &[Face], output: &Output) -> bool
    requires { (1 ≤ output.now.panel) × (1 ≤ output.now.number) × (output.now.number ≤ 32) }
    ensures { result ≡ has_bit (slice_index_or faces.now (output.now.panel - 1)
        (empty_face output.now.panel)).outputs (output.now.number - 1) }
{
    has_bit_32(outputs_of(faces, output.panel - 1), output.number - 1)
}
