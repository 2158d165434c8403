//! The bits of a group's masks.

ghost use Rattle.std.specs.Prelude.{◌≡◌, ◌<◌, ◌≤◌, ◌+◌, ◌==◌, ℕ, ◌&&◌, false, true};
ghost use Rattle.std.specs.Prelude.{IfNone, IfSome, if◌then◌else◌, nat_lt, not};
ghost use Rattle.site_types.specs.Bits.{has_bit};

use site_types::{has_bit_8, with_bit_8};

/// Whether a mask has the bit of a place; it has none past the eighth.
pub(crate) fn has_place(mask: u8, place: u8) -> bool
    ensures { result ≡ has_bit mask place }
{
    if place < 8 {
        has_bit_8(mask, place)
    } else {
        false
    }
}

/// A mask with the bit of a place set or cleared.
pub(crate) fn with_place(mask: u8, place: u8, on: bool) -> u8
    requires { place < 8 }
    ensures { (k : ℕ) → has_bit result k ≡ (if k == place then on else has_bit mask k) }
{
    with_bit_8(mask, place, on)
}

/// The bits of a mask that another one hasn't.
pub(crate) fn without(mask: u8, other: u8) -> u8
    ensures { (k : ℕ) → has_bit result k ≡ (has_bit mask k && not (has_bit other k)) }
{
    mask & !other
}

/// The bits of a mask at so many places, from this place on.
pub(crate) fn bits_within(mask: u8, from: u8, count: u8) -> u8
    ensures { (k : ℕ) → has_bit result k ≡ (nat_lt k count && has_bit mask (from + k)) }
{
    let bits = (mask as u16) >> from.min(8);
    (bits & ((1 << count.min(8)) - 1)) as u8
}

/// The first of so many bits of a mask that is set, from one on.
pub(crate) fn first_bit(mask: u8, from: u8, count: u8) -> Option<u8>
    ensures some { IfSome result (λ place. (from ≤ place) × (place < from + count)
        × (has_bit mask place ≡ true)) }
    ensures none { IfNone result ((k : ℕ) → k < count → has_bit mask (from + k) ≡ false) }
{
    let bits = bits_within(mask, from, count);
    if bits == 0 {
        None
    } else {
        Some(from + bits.trailing_zeros() as u8)
    }
}
