//! The words of frames.

use panel_links::Frame;
use site_types::Word;

/// The word of a panel that a frame has, and that panel's number.
pub(crate) fn word_at(frame: &Frame, place: u8) -> Option<(u8, Word)> {
    let first = frame.group.saturating_mul(4).saturating_add(1);
    match frame.words.get(place as usize) {
        Some(word) => Some((first.saturating_add(place), *word)),
        None => None,
    }
}

/// The word of its sender, where a frame has it.
pub(crate) fn word_of_sender(frame: &Frame) -> Option<Word> {
    for place in 0..4 {
        if let Some((of, word)) = word_at(frame, place) {
            if of == frame.from {
                return Some(word);
            }
        }
    }
    None
}
