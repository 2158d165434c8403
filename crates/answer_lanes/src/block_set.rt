ghost use Rattle.std.specs.Prelude.{◌≡◌, ◌<◌, ◌≤◌, ◌*◌, IfOk, IfSome, true, length, slice_index_or};

use crate::block_places::place_of;
use crate::known_block::KnownBlock;
use crate::place_set::PlaceSet;
use site_types::has_bit_8;
use std::alloc::Global;
use std::marker::Model;
use tick_units::NoMemory;

/// A set of places that keeps in one word each which places of some blocks of four eights it has, so that these are
/// read at once. Contracts see the set alone.
#[derive(Drop)]
pub struct BlockSet {
    places: PlaceSet,
    /// By number.
    blocks: Vec<KnownBlock>,
    /// By place, the number of the known block that it stands in.
    numbers: Vec<u8>,
}

impl Model for BlockSet {
    ghost use Rattle.answer_lanes.specs.declared.place_set.PlaceSet.{PlaceSet as Places};
    ghost use Rattle.answer_lanes.specs.Known.{HaveNumbers, KeepWords};

    ghost Value = { Places };

    ghost view = { λ s. s.places };

    ghost invariant = { λ s. KeepWords s.places s.blocks.items
        × HaveNumbers s.numbers.items s.blocks.items };
}

// The number of a place that stands in no known block.
const IN_NONE: u8 = 255;

impl BlockSet {
    ghost use Rattle.answer_lanes.specs.Places.{AreEight, HasEightFrom, HasFirst, IsCleared, SetsPlace};
    ghost use Rattle.answer_lanes.specs.Words.{AreEights};

    /// A set that has all of the first places, so many, or none of them. It keeps the words of these blocks, each by
    /// the first places of its eights: of the first 255 that have no place in common with one before.
    pub fn first(
        alloc: Global,
        count: usize,
        all: bool,
        blocks: &[[u16; 4]],
    ) -> Result<BlockSet, NoMemory>
        ensures { IfOk result (λ set. HasFirst count all set) }
    {
        let mut set = BlockSet {
            places: PlaceSet::first(alloc, count, all)?,
            blocks: Vec::with_capacity(alloc, blocks.len())?,
            numbers: vec![in alloc; IN_NONE; count]?,
        };
        for firsts in blocks {
            set.know(firsts)?;
        }
        Ok(set)
    }

    // Keeps the word of a block from now on, where it has no place in common with a known one and a number is left.
    fn know(&mut self, firsts: &[u16; 4]) -> Result<(), NoMemory>
        ensures { self.new ≡ self.old }
    {
        let number = self.blocks.len();
        if number >= IN_NONE as usize || !are_free(self.numbers.as_slice(), firsts) {
            return Ok(());
        }
        take_places(&mut self.numbers, firsts, number as u8);
        let word = self.places.eights_from(firsts);
        self.blocks.push(KnownBlock {
            firsts: *firsts,
            word,
        })?;
        Ok(())
    }

    /// Puts a place in, or takes it out.
    pub fn set(&mut self, place: usize, on: bool)
        requires { place < 8 * length self.old.bytes.items }
        ensures { SetsPlace place on self.old self.new }
    {
        if has_bit_8(self.places.eight_from(place), 0) != on {
            self.change(place, on);
        }
    }

    // Puts a place in, or takes it out, and its block's word with it.
    #[inline(never)]
    fn change(&mut self, place: usize, on: bool)
        requires { place < 8 * length self.old.bytes.items }
        ensures { SetsPlace place on self.old self.new }
    {
        self.places.set(place, on);
        let number = number_at(self.numbers.as_slice(), place) as usize;
        if number < self.blocks.len() {
            let firsts = self.blocks[number].firsts;
            let word = self.places.eights_from(&firsts);
            self.blocks[number] = KnownBlock { firsts, word };
        }
    }

    /// Takes all places out.
    pub fn clear(&mut self)
        ensures { IsCleared self.old self.new }
    {
        self.places.clear();
        forget_words(&mut self.blocks);
    }

    /// Which of the eight places from one on it has, a bit for each, where that one is a place of the set's.
    pub fn eight_within(&self, first: usize) -> u8
        requires { HasEightFrom first self.now }
        ensures { AreEight self.now first result }
    {
        self.places.eight_within(first)
    }

    /// Which of the eight places from one on it has, a bit for each.
    pub fn eight_from(&self, first: usize) -> u8
        ensures { AreEight self.now first result }
    {
        self.places.eight_from(first)
    }

    /// Which of the eight places from each of four on it has, in one word, those of the first one lowest.
    #[inline(always)]
    pub fn eights_from(&self, firsts: &[u16; 4]) -> u32
        ensures { AreEights self.now firsts.now result }
    {
        self.eights_at(self.number_of(firsts), firsts)
    }

    /// A guess at the number of the block with these first places, for [`BlockSet::eights_at`]: sets that keep the
    /// words of the same blocks number them alike, so that it is looked for once for all of them.
    #[inline(always)]
    pub fn number_of(&self, firsts: &[u16; 4]) -> usize {
        match self.numbers.get(firsts[0] as usize) {
            Some(number) => *number as usize,
            None => IN_NONE as usize,
        }
    }

    /// What [`BlockSet::eights_from`] answers, at once where the number is that of these eights' block.
    #[inline(always)]
    pub fn eights_at(&self, number: usize, firsts: &[u16; 4]) -> u32
        ensures { AreEights self.now firsts.now result }
    {
        match self.known(number, firsts) {
            Some(word) => word,
            None => self.gathered(firsts),
        }
    }

    // The word of these eights, if they are the known block with this number.
    #[inline(always)]
    fn known(&self, number: usize, firsts: &[u16; 4]) -> Option<u32>
        ensures { IfSome result (λ word. AreEights self.now firsts.now word) }
    {
        let block = self.blocks.get(number)?;
        if block.firsts == *firsts {
            Some(block.word)
        } else {
            None
        }
    }

    // The word of any eights. It stands apart, so that known blocks need not share registers with it.
    #[inline(never)]
    fn gathered(&self, firsts: &[u16; 4]) -> u32
        ensures { AreEights self.now firsts.now result }
    {
        self.places.eights_from(firsts)
    }
}

ghost use Rattle.answer_lanes.specs.Known.{AreFree, ForgetsWords, TakesPlaces, in_none};

// Whether no place of a block stands in a known one.
fn are_free(numbers: &[u8], firsts: &[u16; 4]) -> bool
    ensures { result ≡ true → AreFree numbers.now firsts.now }
{
    for k in 0..32 {
        match numbers.get(place_of(firsts, k)) {
            Some(&IN_NONE) => {}
            _ => return false,
        }
    }
    true
}

// Gives the places of a block, which stand in no known one, its number.
fn take_places(numbers: &mut Vec<u8>, firsts: &[u16; 4], number: u8)
    requires { AreFree numbers.old.items firsts.now }
    ensures { TakesPlaces firsts.now number numbers.old.items numbers.new.items }
{
    for k in 0..32 {
        numbers[place_of(firsts, k)] = number;
    }
}

// The number of the known block in which a place stands.
fn number_at(numbers: &[u8], place: usize) -> u8
    ensures { result ≡ slice_index_or numbers.now place in_none }
{
    match numbers.get(place) {
        Some(number) => *number,
        None => IN_NONE,
    }
}

// Takes all places out of the words of blocks.
fn forget_words(blocks: &mut Vec<KnownBlock>)
    ensures { ForgetsWords blocks.old.items blocks.new.items }
{
    for number in 0..blocks.len() {
        let firsts = blocks[number].firsts;
        blocks[number] = KnownBlock { firsts, word: 0 };
    }
}
