//! Which numbers two pairs of masks differ in, one after another. Number 1 is bit 0 of the first mask, number 97
//! bit 0 of the second.

ghost use Rattle.std.specs.Prelude.{◌≡◌, ◌≤◌, ◌<◌, ◌-◌, ℕ, [], ◌∷◌, true, false, bit_xor, slice_index};
ghost use Rattle.site_types.specs.Bits.{bit_of, half_of, has_bit};

/// The numbers that stand in one of two pairs of masks alone.
pub fn changed(before: &[u128; 2], after: &[u128; 2]) -> [u128; 2]
    ensures { result ≡ bit_xor (slice_index before.now 0) (slice_index after.now 0)
        ∷ bit_xor (slice_index before.now 1) (slice_index after.now 1) ∷ [] }
{
    [before[0] ^ after[0], before[1] ^ after[1]]
}

/// The first number of a pair of masks from one on; 193 where there is none.
pub fn next_number(marks: &[u128; 2], from: u8) -> u8
    requires { (1 ≤ from) × (from ≤ 193) }
    ensures within { (from ≤ result) × (result ≤ 193) }
    ensures none { (number : ℕ) → from ≤ number → number < result
        → has_bit (slice_index marks.now (half_of number)) (bit_of number) ≡ false }
    ensures some { result ≤ 192
        → has_bit (slice_index marks.now (half_of result)) (bit_of result) ≡ true }
{
    if from <= 96 {
        let bit = next_bit(marks[0], from - 1);
        if bit < 96 {
            return bit + 1;
        }
        return next_bit(marks[1], 0) + 97;
    }
    next_bit(marks[1], from - 97) + 97
}

// The first bit of a mask from one on; 96 where there is none below.
fn next_bit(mask: u128, from: u8) -> u8
    requires { from ≤ 96 }
    ensures within { (from ≤ result) × (result ≤ 96) }
    ensures none { (k : ℕ) → from ≤ k → k < result → has_bit mask k ≡ false }
    ensures some { result < 96 → has_bit mask result ≡ true }
{
    let rest = mask >> from;
    from + (rest.trailing_zeros() as u8).min(96 - from)
}
