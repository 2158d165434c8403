//! Where what a frame holds begins.

/// The bytes of a frame.
pub const FRAME_BYTES: usize = 136;
/// Who sends it, behind `FW` and the digest.
pub(crate) const FROM_PLACE: usize = 34;
/// The group of its words.
pub(crate) const GROUP_PLACE: usize = 35;
/// The first of its four words.
pub(crate) const WORDS_PLACE: usize = 36;
/// The bytes of a word.
pub(crate) const WORD_BYTES: usize = 25;
