//! What comes to a panel by itself over a connection, and what it answers, in words.

use crate::frames::{frame_of, said_frame};
use crate::requests::block_of;
use anyhow::{Context, Result};
use std::alloc::Global;
use std::fs;
use trial_cases::Lines;

/// The bytes that come: `empty` stands for none, `frame` with the words of `frame_of` for a frame, a name that ends
/// with `.block` for a file, and anything else for a tick block.
pub(crate) fn input_of(rt: &HostRuntime, digest: &[u8; 32], words: &str) -> Result<Vec<u8>> {
    if words == "empty" {
        return Ok(Vec::new(rt.alloc()));
    }
    if words.ends_with(".block") {
        return fs::read(rt, words).context(format_args!("reading {words}"));
    }
    match words.strip_prefix("frame ") {
        Some(fields) => frame_of(rt, digest, fields),
        None => Ok(block_of(rt.alloc(), words)?.into_bytes()),
    }
}

/// What a panel of the site with this digest answered: a frame, or lines with `, ` between them.
pub(crate) fn said_answer(alloc: Global, digest: &[u8; 32], bytes: &[u8]) -> Result<String> {
    let mut lines = Lines::new(alloc);
    if said_frame(&mut lines, digest, bytes) {
        return lines.done();
    }
    match str::from_utf8(bytes) {
        Ok(text) => say_text(&mut lines, text),
        Err(_) => lines.hex(bytes),
    }
    lines.done()
}

fn say_text(lines: &mut Lines, text: &str) {
    for line in text.lines() {
        lines.item(", ", line);
    }
    if text.is_empty() {
        lines.say("nothing");
    } else if !text.ends_with('\n') {
        lines.say(", without a line end");
    }
}
