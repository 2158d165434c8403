//! What is said of a case behind its record: parts such as `pieces 7, disk fails 75`, with `, ` between them.

use crate::outside::{Outside, SOUND};
use anyhow::{Result, bail};
use std::fs;
use trial_cases::Words;

/// The outside that the options speak of.
pub(crate) fn outside_of(options: &str) -> Result<Outside> {
    let mut outside = SOUND;
    for part in options.split(", ") {
        if let Some((edge, numbers)) = part.split_once(" fails ") {
            let calls = range_of(numbers)?;
            match edge {
                "fetch" => outside.fetch = calls.0,
                "read" => outside.read = calls.0,
                "write" => outside.write = calls.0,
                "disk" => outside.disk = calls,
                "target" => outside.target = calls,
                "door" => outside.door = calls.0,
                "keeper" => outside.keeper = calls.0,
                word => bail!("nothing that fails: {word}"),
            }
            continue;
        }
        let mut words = Words::of(part);
        match words.next() {
            "pieces" => outside.piece = words.place()? as usize,
            "takes" => outside.take = words.place()? as usize,
            _ => {}
        }
    }
    Ok(outside)
}

/// What stands behind this word, empty where no part begins with it.
pub(crate) fn option<'a>(options: &'a str, word: &str) -> &'a str {
    for part in options.split(", ") {
        let mut words = Words::of(part);
        if words.next() == word {
            return words.rest();
        }
    }
    ""
}

/// The first and the last of a range such as `1 to 120`, or of a number alone.
pub(crate) fn range_of(words: &str) -> Result<(u64, u64)> {
    let (first, last) = words.split_once(" to ").unwrap_or((words, words));
    Ok((first.parse::<u64>()?, last.parse::<u64>()?))
}

/// A journal with what the options do to it: `bytes 64 1 0` sets bytes from a place on, `length 2047` cuts it or makes
/// it longer with zeros, `file NAME` takes a file in its place.
pub(crate) fn edited(rt: &HostRuntime, journal: Vec<u8>, options: &str) -> Result<Vec<u8>> {
    let mut journal = journal;
    for part in options.split(", ") {
        let mut words = Words::of(part);
        match words.next() {
            "bytes" => {
                let at = words.place()? as usize;
                set_bytes(&mut journal, at, words.rest())?;
            }
            "length" => journal.resize(words.place()? as usize, 0)?,
            "file" => journal = fs::read(rt, words.rest())?,
            _ => {}
        }
    }
    Ok(journal)
}

// Sets bytes from a place on to those that words spell as numbers.
fn set_bytes(bytes: &mut Vec<u8>, at: usize, words: &str) -> Result<()> {
    for (place, word) in words.split(' ').enumerate() {
        let value = word.parse::<u8>()?;
        if let Some(byte) = bytes.get_mut(at.saturating_add(place)) {
            *byte = value;
        }
    }
    Ok(())
}
