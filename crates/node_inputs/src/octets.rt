//! That each byte is one. Nothing is done here: contracts learn how great bytes are.

ghost use Rattle.std.specs.Prelude.{◌<◌, ℕ, slice_index};

/// Each of these is below 256.
pub(crate) fn note_octets(bytes: &[u8])
    ensures { (place : ℕ) → slice_index bytes.now place < 256 }
{
    for place in 0..bytes.len() {
        note_octet(bytes[place]);
    }
}

fn note_octet(byte: u8)
    ensures { byte < 256 }
{}
