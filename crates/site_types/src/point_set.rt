ghost use Rattle.std.specs.Prelude.{◌≡◌, ◌≢◌, ◌≤◌, ◌⊎◌, ℕ};
ghost use Rattle.site_types.specs.Bits.{IsPlace, has_point, with_point};

use crate::bits::{has_bit_128, with_bit_128};

/// A set of points of one panel. Per loop two numbers: address 1 to 96 is bit `address - 1` of the first, 97
/// to 192 bit `address - 97` of the second.
#[derive(Clone, Copy, Debug, Default, PartialEq, Eq)]
pub struct PointSet {
    pub loops: [[u128; 2]; 4],
}

impl PointSet {
    /// Whether the point at a line, 1 to 4, and an address, 1 to 192, is in the set.
    pub fn contains(&self, line: u8, address: u8) -> bool
        requires { IsPlace line address }
        ensures { result ≡ has_point self.now line address }
    {
        let halves = &self.loops[line as usize - 1];
        has_bit_128(halves[(address as usize - 1) / 96], (address - 1) % 96)
    }

    /// Puts the point at a line, 1 to 4, and an address, 1 to 192, into the set or takes it out.
    pub fn set(&mut self, line: u8, address: u8, on: bool)
        requires { IsPlace line address }
        ensures value { self.new ≡ with_point self.old line address on }
        ensures this { has_point self.new line address ≡ on }
        ensures others { (l a : ℕ) → IsPlace l a → (l ≢ line) ⊎ (a ≢ address)
            → has_point self.new l a ≡ has_point self.old l a }
    {
        let half = (address as usize - 1) / 96;
        let halves = &mut self.loops[line as usize - 1];
        halves[half] = with_bit_128(halves[half], (address - 1) % 96, on);
    }

    /// The set with that point in or out.
    pub fn with(self, line: u8, address: u8, on: bool) -> PointSet
        requires { IsPlace line address }
        ensures value { result ≡ with_point self line address on }
        ensures this { has_point result line address ≡ on }
        ensures others { (l a : ℕ) → IsPlace l a → (l ≢ line) ⊎ (a ≢ address)
            → has_point result l a ≡ has_point self l a }
    {
        let mut set = self;
        set.set(line, address, on);
        set
    }
}
