//! Reads and writes that fail, each in turn.

use crate::called::{Called, call};
use crate::groups::Groups;
use crate::outside::Outside;
use crate::telling::told_if;
use crate::trial::Trial;
use anyhow::Result;
use std::alloc::Global;

/// Where a read fails, the text is that of the bytes which were read, and a line that says so. The read behind the last
/// one doesn't come.
pub(crate) fn try_reads(alloc: Global, trial: &Trial) -> Result<String> {
    let whole = call(alloc, trial.given(), trial.outside)?;
    let mut groups = Groups::new(alloc);
    for before in 0..whole.reads.saturating_add(1).min(100_000) {
        let outside = Outside {
            read: before + 1,
            ..trial.outside
        };
        let called = call(alloc, trial.given(), outside)?;
        let told = if before == whole.reads {
            told_whole(alloc, &called, &whole)?
        } else {
            let read = (before as usize).saturating_mul(trial.outside.piece);
            let holds = tells_fault(alloc, trial, read, called.text.as_str())?;
            told_if(
                alloc,
                &called,
                holds,
                ": the text of what was read, fault read",
            )?
        };
        groups.put(before + 1, told);
    }
    groups.done()
}

// Whether a text is that of a run over no more of the record than so many bytes, with `fault read` in place of the last
// line, which tells that the record isn't whole.
fn tells_fault(alloc: Global, trial: &Trial, read: usize, text: &str) -> Result<bool> {
    let called = call(alloc, trial.given().cut(read), trial.outside)?;
    let Some(front) = text.strip_suffix("fault read\n") else {
        return Ok(false);
    };
    match called.text.as_str().strip_prefix(front) {
        Some(last) => Ok(last.starts_with("refused line ") && last.split('\n').count() == 2),
        None => Ok(false),
    }
}

/// Where a write fails, a front of the text was written, the longer the later it was. The write behind the last one
/// doesn't come.
pub(crate) fn try_writes(alloc: Global, trial: &Trial) -> Result<String> {
    let whole = call(alloc, trial.given(), trial.outside)?;
    let mut groups = Groups::new(alloc);
    let mut least = 0;
    for before in 0..whole.writes.saturating_add(1).min(100_000) {
        let outside = Outside {
            write: before + 1,
            ..trial.outside
        };
        let called = call(alloc, trial.given(), outside)?;
        let told = if before == whole.writes {
            told_whole(alloc, &called, &whole)?
        } else {
            let length = called.text.len();
            let is_front = whole.text.as_str().starts_with(called.text.as_str());
            let holds = is_front && length >= least && length < whole.text.len();
            least = length.saturating_add(1);
            told_if(alloc, &called, holds, ": a front of the text")?
        };
        groups.put(before + 1, told);
    }
    groups.done()
}

// How a call ended whose text has to be the whole one.
fn told_whole(alloc: Global, called: &Called, whole: &Called) -> Result<String> {
    told_if(alloc, called, whole.is_told_by(called), ": the whole text")
}
