//! Bytes and numbers at places of a file.

ghost use Rattle.std.specs.Prelude.{◌≡◌, ◌⊎◌, ◌+◌, ◌<◌, ◌≤◌, ℕ, length, slice_index};
ghost use Rattle.retained_journal.specs.Fields.{Agrees, AreBytes, bytes_at, mask_at, number_at as number_in};
ghost use Rattle.retained_journal.specs.Fields.{numbers_at, is_within as within};

use byteorder::{BigEndian, ByteOrder, LittleEndian};

// The number of four bytes at a place.
pub(crate) fn short_number_at(bytes: &[u8], at: usize) -> u32
    requires { at + 4 ≤ length bytes.now }
    ensures { result ≡ number_in 4 at bytes.now }
{
    BigEndian::read_u32(&bytes[at..])
}

// The number of eight bytes at a place.
pub(crate) fn number_at(bytes: &[u8], at: usize) -> u64
    requires { at + 8 ≤ length bytes.now }
    ensures { result ≡ number_in 8 at bytes.now }
{
    BigEndian::read_u64(&bytes[at..])
}

// The mask of a loop's 96 points at a place.
pub(crate) fn points_mask_at(bytes: &[u8], at: usize) -> u128
    requires { at + 12 ≤ length bytes.now }
    ensures { result ≡ mask_at 12 at bytes.now }
{
    LittleEndian::read_uint128(&bytes[at..], 12)
}

// The number of each panel, from a place on.
pub(crate) fn panel_numbers_at(bytes: &[u8], at: usize) -> [u32; 8]
    requires { at + 32 ≤ length bytes.now }
    ensures { result ≡ numbers_at at bytes.now }
{
    let mut numbers = [0; 8];
    BigEndian::read_u32_into(&bytes[at..at + 32], &mut numbers);
    numbers
}

// The first eight bytes.
pub(crate) fn mark_of(bytes: &[u8]) -> [u8; 8]
    requires { 8 ≤ length bytes.now }
    ensures { result ≡ bytes_at 8 0 bytes.now }
{
    let mut mark = [0; 8];
    mark.copy_from_slice(&bytes[..8]);
    mark
}

// The 32 bytes of a digest at a place.
pub(crate) fn digest_at(bytes: &[u8], at: usize) -> [u8; 32]
    requires { at + 32 ≤ length bytes.now }
    ensures { result ≡ bytes_at 32 at bytes.now }
{
    let mut digest = [0; 32];
    digest.copy_from_slice(&bytes[at..at + 32]);
    digest
}

// Whether a byte is from one bound to another.
pub(crate) fn is_within(least: u8, most: u8, byte: u8) -> bool
    ensures { result ≡ within least most byte }
{
    least <= byte && byte <= most
}

// Writes bytes over others.
pub(crate) fn put(bytes: &mut [u8], at: usize, piece: &[u8])
    requires { at + length piece.now ≤ length bytes.old }
    ensures size { length bytes.new ≡ length bytes.old }
    ensures are_bytes { AreBytes bytes.new }
    ensures inside { Agrees (length piece.now) bytes.new at piece.now 0 }
    ensures outside { (i : ℕ) → (i < at) ⊎ (at + length piece.now ≤ i) →
        slice_index bytes.new i ≡ slice_index bytes.old i }
{
    bytes[at..at + piece.len()].copy_from_slice(piece);
}
