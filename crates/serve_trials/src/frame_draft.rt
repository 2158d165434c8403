use crate::frames::{FIELDS, FRAME_BYTES, FROM_PLACE, GROUP_PLACE, word_place};
use anyhow::{Result, bail};
use std::alloc::Global;
use trial_cases::look_up;

/// A frame that words spell.
#[derive(Drop)]
pub(crate) struct FrameDraft {
    pub(crate) bytes: Vec<u8>,
    // Where the word begins, or the byte stands, that was named last.
    at: usize,
}

impl FrameDraft {
    /// A frame with a digest, all else in it 0.
    pub(crate) fn new(alloc: Global, digest: &[u8; 32]) -> Result<FrameDraft> {
        let mut bytes = Vec::from_slice(alloc, b"FW")?;
        bytes.resize(FRAME_BYTES, 0)?;
        let mut draft = FrameDraft { bytes, at: 0 };
        draft.set_digest(digest);
        Ok(draft)
    }

    pub(crate) fn set_digest(&mut self, digest: &[u8; 32]) {
        for (place, byte) in digest.iter().enumerate() {
            self.put(place.saturating_add(2), 1, *byte as u64);
        }
    }

    /// Sets what a name stands for.
    pub(crate) fn set(&mut self, name: &str, value: &str) -> Result<()> {
        match name {
            "word" => self.at = word_place(value.parse::<u8>()?),
            "byte" => self.at = value.parse::<u8>()? as usize,
            "length" => self.bytes.resize(value.parse::<u32>()? as usize, 0)?,
            _ => match self.place_of(name) {
                Some((at, size)) => self.put(at, size, value.parse::<u64>()?),
                None => bail!("a frame has no {name}"),
            },
        }
        Ok(())
    }

    // Where a field begins, and how many bytes it has.
    fn place_of(&self, name: &str) -> Option<(usize, usize)> {
        match name {
            "from" => Some((FROM_PLACE, 1)),
            "group" => Some((GROUP_PLACE, 1)),
            "is" => Some((self.at, 1)),
            _ => {
                let (begin, size) = look_up(&FIELDS, name)?;
                Some((self.at.saturating_add(begin), size))
            }
        }
    }

    // Spells a number in some bytes, the greatest first.
    fn put(&mut self, at: usize, size: usize, number: u64) {
        let mut rest = number;
        for place in (0..size).rev() {
            if let Some(byte) = self.bytes.get_mut(at.saturating_add(place)) {
                *byte = (rest % 256) as u8;
            }
            rest /= 256;
        }
    }
}
