//! The frames of panels by themselves in words, such as `from 1, group 0, word 1, stamp 5, alarm 1`.

use crate::frame_draft::FrameDraft;
use anyhow::{Context, Result};
use site_types::site_digest;
use std::fs;
use trial_cases::Lines;

pub(crate) const FRAME_BYTES: usize = 136;

pub(crate) const FROM_PLACE: usize = 34;

pub(crate) const GROUP_PLACE: usize = 35;

/// The fields of a word: where each begins in it, and how many bytes it has.
pub(crate) const FIELDS: [(&str, (usize, usize)); 6] = [
    ("stamp", (0, 8)),
    ("alarm", (8, 4)),
    ("manual", (12, 4)),
    ("released", (16, 4)),
    ("first", (20, 4)),
    ("fault", (24, 1)),
];

/// Where the word of a number, from 1 to 4, begins.
pub(crate) fn word_place(number: u8) -> usize {
    (number as usize)
        .saturating_sub(1)
        .saturating_mul(25)
        .saturating_add(36)
}

/// The bytes of a frame with a digest, or of what is broken in it: parts with a value each, in the order in which they
/// are set. `word 2` and `byte 60` say of what the parts behind them are; the byte itself is set by `is 2`. `length
/// 135` cuts the frame, or puts zeros behind it; `of other.toml` takes the digest of that file.
pub(crate) fn frame_of(rt: &HostRuntime, digest: &[u8; 32], words: &str) -> Result<Vec<u8>> {
    let mut draft = FrameDraft::new(rt.alloc(), digest)?;
    for part in words.split(", ") {
        let (name, value) = part.split_once(' ').unwrap_or((part, ""));
        if name == "of" {
            let file = fs::read(rt, value).context(format_args!("reading {value}"))?;
            draft.set_digest(&site_digest(file.as_slice()));
        } else {
            draft.set(name, value)?;
        }
    }
    Ok(draft.bytes)
}

/// Says a frame with this digest in words, of its four words the fields that aren't 0. Of other bytes nothing is said.
pub(crate) fn said_frame(lines: &mut Lines, digest: &[u8; 32], bytes: &[u8]) -> bool {
    let has_digest = match bytes.strip_prefix(b"FW") {
        Some(rest) => rest.starts_with(digest),
        None => false,
    };
    if !has_digest || bytes.len() != FRAME_BYTES {
        return false;
    }
    lines.count("frame from ", number_at(bytes, FROM_PLACE, 1));
    lines.count(", group ", number_at(bytes, GROUP_PLACE, 1));
    for number in 1..5 {
        say_word(lines, bytes, number);
    }
    true
}

// Says the fields of a word that aren't 0.
fn say_word(lines: &mut Lines, bytes: &[u8], number: u8) {
    let mut is_named = false;
    for (name, (begin, size)) in &FIELDS {
        let value = number_at(bytes, word_place(number).saturating_add(*begin), *size);
        if value > 0 {
            if !is_named {
                lines.count(", word ", number as u64);
                is_named = true;
            }
            lines.say(", ");
            lines.say(name);
            lines.count(" ", value);
        }
    }
}

// The number that some bytes spell, the greatest first.
fn number_at(bytes: &[u8], at: usize, size: usize) -> u64 {
    let mut number: u64 = 0;
    for place in 0..size {
        let byte = match bytes.get(at.saturating_add(place)) {
            Some(byte) => *byte as u64,
            None => 0,
        };
        number = number.wrapping_mul(256).saturating_add(byte);
    }
    number
}
