ghost use Rattle.std.specs.Prelude.{◌≡◌, ◌↔◌, ◌≤◌, ◌<◌, [], ℕ, false, length, slice_index_or, true};
ghost use Rattle.panel_links.specs.Kept.{HasZonesOf, newest};
ghost use Rattle.panel_links.specs.Told.{AreOfEight, KeepOthers, TellWord, TellsSame, table_word};

use marker_table::Facts;
use site_types::{Word, with_bit_8};

// The newer of two words by stamp; of two of one stamp the first.
pub(crate) fn newer(kept: Word, other: Word) -> Word
    ensures { result ≡ newest kept other }
{
    if kept.stamp.0 < other.stamp.0 {
        other
    } else {
        kept
    }
}

// Whether a word tells nothing else than another one. There is no jump between the tests, and they go in the order of
// the fields, so that four of them are made together.
pub(crate) fn tells_same(word: &Word, other: &Word) -> bool
    ensures { result ≡ true → TellsSame word.now other.now }
{
    let masks = (word.alarm == other.alarm)
        & (word.manual == other.manual)
        & (word.released == other.released)
        & (word.first == other.first);
    masks && word.fault == other.fault
}

// Whether a panel keeps a word of one that tells nothing else than the one that another panel keeps. The words are
// compared where they lie.
pub(crate) fn keep_same(words: &[[Word; 8]; 8], at: u8, other: u8, of: u8) -> bool
    requires at { (1 ≤ at) × (at ≤ 8) }
    requires other { (1 ≤ other) × (other ≤ 8) }
    requires from { (1 ≤ of) × (of ≤ 8) }
    requires wide { (k : ℕ) → k < 8 → length (slice_index_or words.now k []) ≡ 8 }
    ensures { result ≡ true
        → TellsSame (table_word words.now at of) (table_word words.now other of) }
{
    let place = of as usize - 1;
    tells_same(
        &words[at as usize - 1][place],
        &words[other as usize - 1][place],
    )
}

pub(crate) fn has_other_zones(word: &Word, kept: &Word) -> bool
    ensures { result ≡ false ↔ HasZonesOf word.now kept.now }
{
    word.alarm != kept.alarm || word.first != kept.first
}

// Makes facts have of a panel what its word tells.
pub(crate) fn tell(facts: &mut Facts, of: u8, word: &Word)
    requires { (1 ≤ of) × (of ≤ 8) }
    ensures this { TellWord of word.now facts.new }
    ensures eight { AreOfEight facts.new }
    ensures others { KeepOthers of facts.old facts.new }
{
    let place = of as usize - 1;
    facts.zones[place] = word.released;
    facts.manual[place] = word.manual;
    facts.faults = with_bit_8(facts.faults, of - 1, word.fault);
}
