//! The bits of four eights in one word, so that all of them are compared at once.

ghost use Rattle.std.specs.Prelude.{[], ◌∷◌};
ghost use Rattle.answer_lanes.specs.Words.{AreBitsOf};

/// The bits of four bytes in one word, the first byte's lowest.
#[inline(always)]
pub fn joined(bytes: &[u8; 4]) -> u32
    ensures { AreBitsOf bytes.now result }
{
    word_of(bytes[0], bytes[1], bytes[2], bytes[3])
}

/// The bits of a word in four bytes, the lowest in the first.
#[inline(always)]
pub fn parted(word: u32) -> [u8; 4]
    ensures { AreBitsOf result word }
{
    word.to_le_bytes()
}

#[inline(always)]
fn word_of(first: u8, second: u8, third: u8, fourth: u8) -> u32
    ensures { AreBitsOf (first ∷ second ∷ third ∷ fourth ∷ []) result }
{
    u32::from_le_bytes([first, second, third, fourth])
}
