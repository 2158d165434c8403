ghost use Rattle.std.specs.Prelude.{◌≡◌, ◌≢◌, ℕ};
ghost use Rattle.marker_table.specs.declared.facts.Facts.{Facts as Masks};
ghost use Rattle.marker_table.specs.Equations.{values_of};
ghost use Rattle.marker_table.specs.Table.{HasFacts, HasValues, value_read};

use crate::facts::Facts;
use crate::values::Values;
use site_types::with_bit_32;

// Where the words of call points, of faults and of markers begin, behind those of the zones.
pub(crate) const MANUAL_FROM: usize = 8;

pub(crate) const FAULTS_FROM: usize = 16;

pub(crate) const MARKERS_FROM: usize = 17;

/// What markers look at, word by word: facts and the values of the markers.
#[derive(Clone, Copy)]
pub struct Readings {
    // As many as five bits can name, of which the last ones are 0.
    pub(crate) words: [u32; 32],
}

impl Readings {
    /// The readings of facts and values.
    pub fn of(facts: &Facts, values: &Values) -> Readings
        ensures facts { HasFacts facts.now result }
        ensures values { HasValues (values_of values.now) result }
    {
        let mut words = [0; 32];
        for place in 0..8 {
            words[place] = facts.zones[place];
            words[MANUAL_FROM + place] = facts.manual[place];
            words[MARKERS_FROM + place] = values.words[place];
        }
        words[FAULTS_FROM] = facts.faults as u32;
        Readings { words }
    }

    /// The values of the markers.
    pub fn values(&self) -> Values
        ensures { (marker : ℕ) → values_of result marker ≡ value_read self.now marker }
    {
        let mut values = Values::none();
        for place in 0..8 {
            values.words[place] = self.words[MARKERS_FROM + place];
        }
        values
    }

    /// Makes the marker at a place true or false.
    pub fn put(&mut self, marker: u8, value: bool)
        ensures facts { (facts : Masks) → HasFacts facts self.old → HasFacts facts self.new }
        ensures this { value_read self.new marker ≡ value }
        ensures others { (other : ℕ) → other ≢ marker
            → value_read self.new other ≡ value_read self.old other }
    {
        let word = MARKERS_FROM + marker as usize / 32;
        self.words[word] = with_bit_32(self.words[word], marker % 32, value);
    }
}
