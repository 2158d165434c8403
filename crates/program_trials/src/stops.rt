//! What a stop at each call of a run leaves.

use crate::called::{Called, call};
use crate::groups::Groups;
use crate::images::{WAYS, reopened};
use crate::options::{option, range_of};
use crate::trial::Trial;
use anyhow::Result;
use std::alloc::Global;
use trial_cases::Lines;

/// What a run tells at its opening where the one before was stopped after each of the calls that its disk logged, from
/// one of them on. One call may leave several files, which then tell several things.
pub(crate) fn try_stops(alloc: Global, trial: &Trial) -> Result<String> {
    let called = call(alloc, trial.given(), trial.outside)?;
    let (from, _) = range_of(option(trial.options, "from"))?;
    let mut groups = Groups::new(alloc);
    for calls in 0..=called.disk.log.len() {
        if calls as u64 >= from {
            groups.put(calls as u64, all_left(alloc, trial, &called, calls)?);
        }
    }
    groups.done()
}

// What is told over each of the files that a stop may leave, each once.
fn all_left(alloc: Global, trial: &Trial, called: &Called, calls: usize) -> Result<String> {
    let mut all: Vec<String> = Vec::new(alloc);
    for way in WAYS {
        let again = reopened(alloc, trial.given(), &called.disk, calls, way)?;
        put_new(&mut all, opening_of(alloc, &again)?)?;
    }
    any_of(alloc, &all)
}

/// Puts a text behind the others, unless it is one of them.
pub(crate) fn put_new(all: &mut Vec<String>, text: String) -> Result<()> {
    for one in all.as_slice() {
        if one.as_str() == text.as_str() {
            return Ok(());
        }
    }
    all.push(text)?;
    Ok(())
}

/// The texts of which any may be told.
pub(crate) fn any_of(alloc: Global, all: &[String]) -> Result<String> {
    let mut lines = Lines::new(alloc);
    for text in all {
        lines.item(" or ", text.as_str());
    }
    lines.done()
}

/// What a run without a tick told between its first line and its last, or all that it told where it ended otherwise.
pub(crate) fn opening_of(alloc: Global, called: &Called) -> Result<String> {
    let mut lines = Lines::new(alloc);
    for line in called.text.as_str().lines() {
        if called.outcome.status != 0 || !(line.starts_with("site ") || line == "end 0") {
            lines.item(", ", line);
        }
    }
    if lines.is_empty() {
        lines.say("nothing");
    }
    lines.done()
}
