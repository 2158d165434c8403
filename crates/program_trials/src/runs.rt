//! Single calls, told whole, and runs over streams that are cut.

use crate::called::{Called, call};
use crate::options::option;
use crate::outside::Outside;
use crate::telling::{say_called, say_ending};
use crate::trial::Trial;
use anyhow::Result;
use std::alloc::Global;
use trial_cases::Lines;

/// How a call ended, what it asked of the outside, and its text.
pub(crate) fn try_call(alloc: Global, trial: &Trial) -> Result<String> {
    let given = trial.given();
    let called = call(alloc, given, trial.outside)?;
    let mut lines = Lines::new(alloc);
    lines.say("    ");
    say_called(&mut lines, &called, given.journal);
    lines.say("\n");
    lines.done()
}

/// Whether the text is the same where a read gives, or a write takes, only so many bytes at a time.
pub(crate) fn try_sizes(alloc: Global, trial: &Trial, is_read: bool) -> Result<String> {
    let whole = call(alloc, trial.given(), trial.outside)?;
    let mut lines = Lines::new(alloc);
    for word in option(trial.options, "of").split(' ') {
        let size = word.parse::<u16>()?;
        let mut outside = trial.outside;
        if is_read {
            outside.piece = size as usize;
        } else {
            outside.take = size as usize;
        }
        say_sized(alloc, &mut lines, trial, outside, &whole)?;
    }
    lines.done()
}

// Says whether a run over this outside ends as another did, with the same text and the same journal.
fn say_sized(
    alloc: Global,
    lines: &mut Lines,
    trial: &Trial,
    outside: Outside,
    whole: &Called,
) -> Result<()> {
    let called = call(alloc, trial.given(), outside)?;
    let is_same = whole.is_told_by(&called)
        && whole.disk.bytes.as_slice() == called.disk.bytes.as_slice();
    lines.count("    reads ", called.reads);
    lines.count(", writes ", called.writes);
    if is_same {
        lines.say(": the same\n");
    } else {
        lines.say(": otherwise, ");
        say_ending(lines, &called);
        lines.say("\n");
    }
    Ok(())
}
