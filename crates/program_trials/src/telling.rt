//! What is told of a call.

use crate::called::Called;
use anyhow::Result;
use std::alloc::Global;
use trial_cases::Lines;

/// Says how a call ended, what it asked of the outside, and its text.
pub(crate) fn say_called(lines: &mut Lines, called: &Called, journal: &[u8]) {
    say_outcome(lines, called);
    lines.count("; fetches ", called.fetches);
    lines.count(", reads ", called.reads);
    lines.count(", writes ", called.writes);
    lines.count(", calls of the disk ", called.disk.calls);
    if called.disk.bytes.as_slice() == journal {
        lines.say("; the journal as it was");
    }
    say_text(lines, called.text.as_str());
}

/// Says how a call ended, and its text.
pub(crate) fn say_ending(lines: &mut Lines, called: &Called) {
    say_outcome(lines, called);
    say_text(lines, called.text.as_str());
}

// Says the status, how many ticks were run, and in how many the journal was not kept.
fn say_outcome(lines: &mut Lines, called: &Called) {
    lines.count("status ", called.outcome.status as u64);
    lines.count(", ticks ", called.outcome.ticks);
    if called.outcome.store_failures > 0 {
        lines.count(", store failures ", called.outcome.store_failures);
    }
}

// Says each line of a text, on lines of their own.
fn say_text(lines: &mut Lines, text: &str) {
    for line in text.lines() {
        lines.say("\n        ");
        lines.say(line);
    }
}

/// How a call ended, and what holds of its text, or that text where this doesn't hold.
pub(crate) fn told_if(alloc: Global, called: &Called, holds: bool, words: &str) -> Result<String> {
    let mut lines = Lines::new(alloc);
    say_outcome(&mut lines, called);
    if holds {
        lines.say(words);
    } else {
        lines.say(", otherwise:");
        say_text(&mut lines, called.text.as_str());
    }
    lines.done()
}

/// How a call ended and its text.
pub(crate) fn told(alloc: Global, called: &Called) -> Result<String> {
    let mut lines = Lines::new(alloc);
    say_ending(&mut lines, called);
    lines.done()
}

/// How often a text has a line.
pub(crate) fn count_lines(text: &str, wanted: &str) -> u64 {
    let mut count: u64 = 0;
    for line in text.lines() {
        count = count.saturating_add((line == wanted) as u64);
    }
    count
}
