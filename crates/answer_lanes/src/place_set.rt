ghost use Rattle.std.specs.Prelude.{◌≡◌, ◌<◌, ◌*◌, IfOk, length};
ghost use Rattle.std.specs.Prelude.{◌%◌, ◌+◌, ◌/◌, ◌^◌, slice_index};

use crate::eight_words::joined;
use site_types::with_bit_8;
use std::alloc::Global;
use tick_units::NoMemory;

/// A set of places, a bit for each, of which eight are read at once.
#[derive(Drop)]
pub struct PlaceSet {
    bytes: Vec<u8>,
}

impl PlaceSet {
    ghost use Rattle.answer_lanes.specs.Words.{AreEights};
    ghost use Rattle.answer_lanes.specs.Places.{AreEight, HasEightFrom, HasFirst, IsCleared, SetsPlace};

    /// A set that has all of the first places, so many, or none of them.
    pub fn first(alloc: Global, count: usize, all: bool) -> Result<PlaceSet, NoMemory>
        ensures { IfOk result (λ set. HasFirst count all set) }
    {
        let byte = if all { u8::MAX } else { 0 };
        let bytes = vec![in alloc; byte; count / 8 + 2]?;
        Ok(PlaceSet { bytes })
    }

    /// Puts a place in, or takes it out.
    pub fn set(&mut self, place: usize, on: bool)
        requires { place < 8 * length self.old.bytes.items }
        ensures { SetsPlace place on self.old self.new }
    {
        let byte = &mut self.bytes[place / 8];
        *byte = with_bit_8(*byte, (place % 8) as u8, on);
    }

    /// Takes all places out.
    pub fn clear(&mut self)
        ensures { IsCleared self.old self.new }
    {
        for number in 0..self.bytes.len() {
            self.bytes[number] = 0;
        }
    }

    /// Which of the eight places from one on it has, a bit for each, where that one is a place of the set's.
    pub fn eight_within(&self, first: usize) -> u8
        requires { HasEightFrom first self.now }
        ensures { AreEight self.now first result }
    {
        let byte = first / 8;
        eight_of(self.bytes[byte], self.bytes[byte + 1], first)
    }

    /// Which of the eight places from one on it has, a bit for each.
    pub fn eight_from(&self, first: usize) -> u8
        ensures { AreEight self.now first result }
    {
        let byte = first / 8;
        if byte + 1 < self.bytes.len() {
            let low = self.bytes[byte];
            let high = self.bytes[byte + 1];
            return eight_of(low, high, first);
        }
        eight_of(self.byte(byte), 0, first)
    }

    /// Which of the eight places from each of four on it has, in one word, those of the first one lowest.
    #[inline(always)]
    pub fn eights_from(&self, firsts: &[u16; 4]) -> u32
        ensures { AreEights self.now firsts.now result }
    {
        let [first, second, third, fourth] = firsts;
        joined(&[
            self.eight_from(*first as usize),
            self.eight_from(*second as usize),
            self.eight_from(*third as usize),
            self.eight_from(*fourth as usize),
        ])
    }

    fn byte(&self, number: usize) -> u8
        ensures { result ≡ slice_index self.now.bytes.items number }
    {
        if number < self.bytes.len() {
            self.bytes[number]
        } else {
            0
        }
    }
}

// The eight bits of two bytes that begin with a place's bit in the first one.
fn eight_of(low: u8, high: u8, place: usize) -> u8
    ensures bits { result ≡ (high * 256 + low) / 2 ^ (place % 8) % 256 }
    ensures byte { low < 256 }
{
    (((high as u16 * 256 + low as u16) >> (place % 8)) % 256) as u8
}
