ghost use Rattle.std.specs.Prelude.{◌≡◌, ◌<◌, ◌≤◌, ◌+◌, ◌==◌, ◌&&◌, ℕ, if◌then◌else◌, false, nat_lt, true};
ghost use Rattle.site_types.specs.Bits.{has_bit};
ghost use Rattle.site_types.specs.Changes.{IsNumber};

use site_types::with_bit_32;

/// The mask of the zone with a number, if it is on.
pub fn one_bit(number: u8, on: bool) -> u32
    requires { IsNumber number }
    ensures { (k : ℕ) → k < 32 → has_bit result k ≡ (if (k + 1) == number then on else false) }
{
    with_bit_32(0, number - 1, on)
}

/// A mask of zones with at most two bits: those of two numbers, which may be the same, where the first decides.
pub fn two_bits(number: u8, on: bool, other: u8, also: bool) -> u32
    requires { IsNumber number × IsNumber other }
    ensures { (k : ℕ) → k < 32
        → has_bit result k ≡ (if (k + 1) == number then on else (((k + 1) == other) && also)) }
{
    with_bit_32(with_bit_32(0, other - 1, also), number - 1, on)
}

/// A byte of which so many bits are set, the lowest ones.
pub fn first_bits(count: u8) -> u8
    requires { count ≤ 8 }
    ensures { (k : ℕ) → has_bit result k ≡ nat_lt k count }
{
    ((1u16 << count) - 1) as u8
}

/// The bits of a byte from a place on.
pub fn bits_from(byte: u8, place: u8) -> u8
    requires { place ≤ 8 }
    ensures { (k : ℕ) → has_bit result k ≡ has_bit byte (place + k) }
{
    ((byte as u16) >> place) as u8
}

/// The lowest bit of a byte that is set.
pub fn lowest_bit(byte: u8) -> u8
    requires { 0 < byte }
    ensures within { result < 8 }
    ensures set { has_bit byte result ≡ true }
    ensures none { (k : ℕ) → k < result → has_bit byte k ≡ false }
{
    byte.trailing_zeros() as u8
}

/// The lowest bit of a byte that is set, or this number where none is.
pub fn lowest_bit_or(byte: u8, otherwise: u8) -> u8
    ensures set { 0 < byte → has_bit byte result ≡ true }
    ensures none { (k : ℕ) → k < result → has_bit byte k ≡ false }
    ensures otherwise { byte ≡ 0 → result ≡ otherwise }
{
    if byte == 0 {
        otherwise
    } else {
        lowest_bit(byte)
    }
}

/// The lowest bit of a word that is set from a place on, or 32 where none is.
#[inline(always)]
pub fn lowest_from(word: u32, place: u8) -> u8
    requires { place ≤ 32 }
    ensures least { place ≤ result }
    ensures most { result ≤ 32 }
    ensures none { (k : ℕ) → place ≤ k → k < result → has_bit word k ≡ false }
{
    let left = ((word as u64) >> place) as u32;
    if left == 0 {
        return 32;
    }
    place + left.trailing_zeros() as u8
}
