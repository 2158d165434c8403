ghost use Rattle.std.specs.Prelude.{◌≡◌, ◌≤◌, ◌<◌, ℕ, true, false};
ghost use Rattle.site_types.specs.Bits.{has_bit};

/// The first bit of a mask that is set, from a bit on; 32 where there is none.
pub fn next_bit(mask: u32, from: u8) -> u8
    requires { from ≤ 32 }
    ensures bounds { (from ≤ result) × (result ≤ 32) }
    ensures none { (k : ℕ) → from ≤ k → k < result → has_bit mask k ≡ false }
    ensures set { result < 32 → has_bit mask result ≡ true }
{
    if from >= 32 {
        return 32;
    }
    let rest = mask >> from;
    if rest == 0 {
        32
    } else {
        from + rest.trailing_zeros() as u8
    }
}

/// The lowest bit of a mask that is set.
pub fn lowest_bit(mask: u32) -> u8
    requires { 0 < mask }
    ensures within { result < 32 }
    ensures set { has_bit mask result ≡ true }
{
    mask.trailing_zeros() as u8
}
