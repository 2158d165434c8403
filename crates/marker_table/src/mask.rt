ghost use Rattle.std.specs.Prelude.{◌≡◌, IfSome};
ghost use Rattle.marker_table.specs.Table.{AddsInput, count_in, no_mask};

use crate::input::Input;
use crate::readings::Readings;
use site_types::{has_bit_32, with_bit_32};

/// Some bits of one word: of the zones of a panel, their call points, the faults, or 32 markers.
#[derive(Clone, Copy, Debug, PartialEq, Eq)]
pub(crate) struct Mask {
    // Which of the readings it is.
    word: u8,
    bits: u32,
}

impl Mask {
    // The mask of one input alone.
    pub(crate) fn of(input: Input) -> Mask
        ensures { AddsInput input (no_mask input) result }
    {
        Mask {
            word: input.word(),
            bits: with_bit_32(0, input.bit(), true),
        }
    }

    // The mask with one input more, where that lies in its word and isn't in it yet.
    pub(crate) fn with(self, input: Input) -> Option<Mask>
        ensures { IfSome result (AddsInput input self) }
    {
        let bit = input.bit();
        if self.word != input.word() || has_bit_32(self.bits, bit) {
            return None;
        }
        Some(Mask {
            word: self.word,
            bits: with_bit_32(self.bits, bit, true),
        })
    }

    // How many of its inputs are true.
    pub(crate) fn count(&self, readings: &Readings) -> u32
        ensures { result ≡ count_in readings.now self.now }
    {
        (self.bits & readings.words[(self.word % 32) as usize]).count_ones()
    }
}
