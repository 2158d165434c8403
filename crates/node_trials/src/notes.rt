use crate::neighbours::place_between;
use crate::words::{word_at, word_of_sender};
use anyhow::{Result, bail};
use face_text::Face;
use panel_links::Frame;
use site_types::Word;
use std::alloc::Global;

/// The words that panels handed out of themselves, and the newest of those that came to panels.
#[derive(Drop)]
pub(crate) struct Notes {
    /// Each with its panel.
    made: Vec<(u8, Word)>,
    /// By the panel to which words came, and of those by the panel whose words they are.
    newest: [Word; 64],
}

impl Notes {
    pub(crate) fn new(alloc: Global) -> Notes {
        Notes {
            made: Vec::new(alloc),
            newest: [Word::default(); 64],
        }
    }

    /// A panel that shows this hands out this frame: its own word has the zones that it shows.
    pub(crate) fn note_made(&mut self, frame: &Frame, face: &Face) -> Result<()> {
        let Some(word) = word_of_sender(frame) else {
            return Ok(());
        };
        if !shows(face, frame.from, &word) {
            bail!("panel {} hands out zones that it doesn't show", frame.from);
        }
        self.made.push((frame.from, word))?;
        Ok(())
    }

    /// A frame comes to a panel: each word was handed out by its own panel.
    pub(crate) fn note_came(&mut self, at: u8, frame: &Frame) -> Result<()> {
        for place in 0..4 {
            let Some((of, word)) = word_at(frame, place) else {
                continue;
            };
            if word.stamp.0 > 0 && !self.made.contains(&(of, word)) {
                bail!("a word that panel {of} never handed out");
            }
            if let Some(kept) = self.newest.get_mut(place_between(at, of)) {
                if kept.stamp.0 < word.stamp.0 {
                    *kept = word;
                }
            }
        }
        Ok(())
    }

    /// Whether the zones that a panel shows of each other one are those of the newest word that came to it, none where
    /// none came.
    pub(crate) fn explain(&self, face: &Face) -> bool {
        for of in 1..=8 {
            let Some(word) = self.newest.get(place_between(face.panel, of)) else {
                return false;
            };
            if of != face.panel && !shows(face, of, word) {
                return false;
            }
        }
        true
    }
}

// Whether a face shows the zones of a word of a panel, in alarm and in first state.
fn shows(face: &Face, panel: u8, word: &Word) -> bool {
    let place = (panel as usize).saturating_sub(1);
    face.zones.get(place) == Some(&word.alarm) && face.firsts.get(place) == Some(&word.first)
}
