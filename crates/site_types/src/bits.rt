//! Masks of 8, 32 and 128 bits: the only place where single bits are read and written.

ghost use Rattle.std.specs.Prelude.{◌≡◌, ◌≢◌, ◌<◌, ◌≤◌, ◌&&◌, ◌||◌, ℕ, false, not, length, slice_index_or};
ghost use Rattle.std.specs.Int.{w8, w32, w128};
ghost use Rattle.site_types.specs.Bits.{has_bit, mask_of, with_bit};

/// Whether a bit is set.
pub fn has_bit_8(mask: u8, bit: u8) -> bool
    requires { bit < 8 }
    ensures { result ≡ has_bit mask bit }
{
    (mask >> bit) & 1 == 1
}

/// Whether a bit is set.
pub fn has_bit_32(mask: u32, bit: u8) -> bool
    requires { bit < 32 }
    ensures { result ≡ has_bit mask bit }
{
    (mask >> bit) & 1 == 1
}

/// Whether a bit is set.
pub fn has_bit_128(mask: u128, bit: u8) -> bool
    requires { bit < 128 }
    ensures { result ≡ has_bit mask bit }
{
    (mask >> bit) & 1 == 1
}

/// The mask with a bit set or cleared.
pub fn with_bit_8(mask: u8, bit: u8, on: bool) -> u8
    requires { bit < 8 }
    ensures value { result ≡ with_bit w8 mask bit on }
    ensures this { has_bit result bit ≡ on }
    ensures others { (k : ℕ) → k < 8 → k ≢ bit → has_bit result k ≡ has_bit mask k }
{
    if on {
        mask | (1 << bit)
    } else {
        mask & !(1 << bit)
    }
}

/// The mask with a bit set or cleared.
pub fn with_bit_32(mask: u32, bit: u8, on: bool) -> u32
    requires { bit < 32 }
    ensures value { result ≡ with_bit w32 mask bit on }
    ensures this { has_bit result bit ≡ on }
    ensures others { (k : ℕ) → k < 32 → k ≢ bit → has_bit result k ≡ has_bit mask k }
{
    if on {
        mask | (1 << bit)
    } else {
        mask & !(1 << bit)
    }
}

/// The mask with a bit set or cleared.
pub fn with_bit_128(mask: u128, bit: u8, on: bool) -> u128
    requires { bit < 128 }
    ensures value { result ≡ with_bit w128 mask bit on }
    ensures this { has_bit result bit ≡ on }
    ensures others { (k : ℕ) → k < 128 → k ≢ bit → has_bit result k ≡ has_bit mask k }
{
    if on {
        mask | (1 << bit)
    } else {
        mask & !(1 << bit)
    }
}

/// The mask whose bits are these flags, the first flag being bit 0.
pub fn mask_from_8(flags: &[bool]) -> u8
    requires { length flags.now ≤ 8 }
    ensures { result ≡ mask_of (length flags.now) (λ k. slice_index_or flags.now k false) }
{
    mask_from_32(flags) as u8
}

/// The mask whose bits are these flags, the first flag being bit 0.
pub fn mask_from_32(flags: &[bool]) -> u32
    requires { length flags.now ≤ 32 }
    ensures { result ≡ mask_of (length flags.now) (λ k. slice_index_or flags.now k false) }
{
    let mut mask = 0;
    for (k, flag) in flags.iter().enumerate() {
        if *flag {
            mask += 1 << k;
        }
    }
    mask
}

/// The mask whose bits are these flags, the first flag being bit 0.
pub fn mask_from_128(flags: &[bool]) -> u128
    requires { length flags.now ≤ 128 }
    ensures { result ≡ mask_of (length flags.now) (λ k. slice_index_or flags.now k false) }
{
    let mut mask = 0;
    for (k, flag) in flags.iter().enumerate() {
        if *flag {
            mask += 1 << k;
        }
    }
    mask
}

/// The bits that are set in one of two masks or in both.
pub fn either_32(a: u32, b: u32) -> u32
    ensures { result ≡ mask_of 32 (λ k. has_bit a k || has_bit b k) }
{
    a | b
}

/// The bits that are set in both masks.
pub fn common_32(a: u32, b: u32) -> u32
    ensures { result ≡ mask_of 32 (λ k. has_bit a k && has_bit b k) }
{
    a & b
}

/// The bits of the first mask that aren't set in the second.
pub fn without_32(a: u32, b: u32) -> u32
    ensures { result ≡ mask_of 32 (λ k. has_bit a k && not (has_bit b k)) }
{
    a & !b
}
