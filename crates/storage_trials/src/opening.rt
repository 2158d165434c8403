//! What is made of the file of a journal that is opened.

use anyhow::{Result, bail};
use panel_edges::{MOST_DISK_BYTES, SoundMemoryDisk};
use retained_journal::{Journal, OpenRefusal};
use std::alloc::Global;
use trial_cases::{Lines, Words};

/// The digest of the site that each journal here is of.
pub(crate) const DIGEST: [u8; 32] = [7; 32];

/// The words are the length of a file that begins as a journal of the site does, and the pieces what is otherwise than
/// zeros in it.
pub(crate) fn open_pieces(alloc: Global, mut words: Words, pieces: &str) -> Result<String> {
    let mut file = journal_file(alloc, words.place()? as usize)?;
    if !pieces.is_empty() {
        for piece in pieces.split(", ") {
            set_piece(file.as_mut_slice(), piece)?;
        }
    }
    tell_opened(alloc, file)
}

/// The text of a file in quotation marks, with bars for line ends.
pub(crate) fn open_text(alloc: Global, text: &str) -> Result<String> {
    let text = text.trim_matches('"').replace(alloc, "|", "\n")?;
    tell_opened(alloc, Vec::from_slice(alloc, text.as_bytes())?)
}

fn journal_file(alloc: Global, len: usize) -> Result<Vec<u8>> {
    let mut file = Vec::from_slice(alloc, b"FPANEL01")?;
    file.extend_from_slice(&DIGEST)?;
    file.resize(len, 0)?;
    Ok(file)
}

// Sets bytes from a place on, `64 is 1 128`.
fn set_piece(file: &mut [u8], piece: &str) -> Result<()> {
    let (from, bytes) = piece.split_once(" is ").unwrap_or((piece, ""));
    let from = from.parse::<u16>()? as usize;
    for (place, byte) in bytes.split(' ').enumerate() {
        let byte = byte.parse::<u8>()?;
        match file.get_mut(from.saturating_add(place)) {
            Some(at) => *at = byte,
            None => bail!("past the end of the file: {piece}"),
        }
    }
    Ok(())
}

/// What a journal makes of a file: the counter of panel 1, or why it is refused.
pub(crate) fn opened(alloc: Global, file: Vec<u8>) -> Result<Result<u32, OpenRefusal>> {
    if file.len() > MOST_DISK_BYTES {
        bail!("too long a file");
    }
    let Ok(mut disk) = SoundMemoryDisk::new(alloc, file) else {
        bail!("no memory");
    };
    match Journal::open(&mut disk, DIGEST, false) {
        Ok((_, kept)) => Ok(Ok(kept.counters[0])),
        Err(refusal) => Ok(Err(refusal)),
    }
}

fn tell_opened(alloc: Global, file: Vec<u8>) -> Result<String> {
    let answer = opened(alloc, file)?;
    let mut lines = Lines::new(alloc);
    say_opened(&mut lines, &answer);
    lines.say("\n");
    lines.done()
}

/// Says what was opened.
pub(crate) fn say_opened(lines: &mut Lines, answer: &Result<u32, OpenRefusal>) {
    match answer {
        Ok(counter) => lines.count("    counter ", *counter as u64),
        Err(OpenRefusal::NotAJournal(mark)) => {
            lines.say("    no journal: ");
            lines.hex(mark);
        }
        Err(OpenRefusal::OtherSite { kept, given }) => {
            lines.say("    of another site: ");
            lines.hex(kept);
            lines.say(", not ");
            lines.hex(given);
        }
        Err(OpenRefusal::Damaged { offset, byte }) => {
            lines.count("    damaged ", *offset);
            lines.count(" ", *byte as u64);
        }
        Err(OpenRefusal::DiskFault) => lines.say("    a fault of the disk"),
    }
}
