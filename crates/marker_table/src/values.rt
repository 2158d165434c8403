ghost use Rattle.std.specs.Prelude.{◌≡◌, ◌≢◌, ◌↔◌, ◌<◌, ◌+◌, ◌*◌, ◌||◌, ℕ, false, IsTrue};
ghost use Rattle.site_types.specs.Bits.{has_bit};
ghost use Rattle.marker_table.specs.Equations.{values_of};

use site_types::{has_bit_32, with_bit_32};

/// Which markers are true, by their places in the site.
#[derive(Clone, Copy, Debug, PartialEq, Eq)]
pub struct Values {
    // 32 markers each, the first one bit 0.
    pub(crate) words: [u32; 8],
}

impl Values {
    /// No marker is true.
    pub fn none() -> Values
        ensures { (marker : ℕ) → values_of result marker ≡ false }
    {
        Values { words: [0; 8] }
    }

    /// Whether the marker at a place is true; a place past the last is false.
    pub fn is_true(&self, marker: u16) -> bool
        ensures { result ≡ values_of self.now marker }
    {
        match self.words.get(marker as usize / 32) {
            Some(word) => has_bit_32(*word, (marker % 32) as u8),
            None => false,
        }
    }

    /// Whether no marker is true.
    pub fn is_none(&self) -> bool
        ensures { IsTrue result ↔ ((marker : ℕ) → values_of self.now marker ≡ false) }
    {
        let [a, b, c, d, e, f, g, h] = self.words;
        (a | b | c | d | e | f | g | h) == 0
    }

    /// Which of the 32 markers from a place on are true, that being 32 times a number.
    pub fn word(&self, number: usize) -> u32
        ensures { (bit : ℕ) → bit < 32
            → has_bit result bit ≡ values_of self.now (32 * number + bit) }
    {
        match self.words.get(number) {
            Some(word) => *word,
            None => 0,
        }
    }

    /// Makes the marker at a place true or false.
    pub fn set(&mut self, marker: u8, value: bool)
        ensures this { values_of self.new marker ≡ value }
        ensures others { (other : ℕ) → other ≢ marker
            → values_of self.new other ≡ values_of self.old other }
    {
        let word = marker as usize / 32;
        self.words[word] = with_bit_32(self.words[word], marker % 32, value);
    }

    /// Makes each marker true that is true in other values.
    pub fn join(&mut self, other: &Values)
        ensures { (marker : ℕ) → values_of self.new marker
            ≡ (values_of self.old marker || values_of other.now marker) }
    {
        for place in 0..8 {
            self.words[place] |= other.words[place];
        }
    }
}
