//! Calls of the disk that fail, each in turn, and what a stop at any moment then leaves.

use crate::called::{Called, call};
use crate::groups::Groups;
use crate::images::{WAYS, reopened};
use crate::keeping::{Keeping, keepings_of};
use crate::options::{option, range_of};
use crate::outside::Outside;
use crate::telling::{count_lines, told};
use crate::trial::Trial;
use anyhow::{Result, bail};
use std::alloc::Global;

/// What a run tells where one call of its disk fails, for each of these calls; and every file that a stop may leave
/// from the opening on opens again, and holds what the text had acknowledged by then.
pub(crate) fn try_disk(alloc: Global, trial: &Trial) -> Result<String> {
    let (first, last) = range_of(option(trial.options, "calls"))?;
    let mut groups = Groups::new(alloc);
    for failing in first..=last.min(100_000) {
        let outside = Outside {
            disk: (failing, failing),
            ..trial.outside
        };
        let called = call(alloc, trial.given(), outside)?;
        if called.outcome.status == 0 {
            try_files(alloc, trial, &called, outside)?;
        }
        if count_lines(called.text.as_str(), "store failed") != called.outcome.store_failures {
            bail!(
                "call {failing} of the disk: the failures that are told aren't those that are counted"
            );
        }
        groups.put(failing, told(alloc, &called)?);
    }
    groups.done()
}

// Tries each file that a stop may leave from the opening of the journal on. Before the call that fails these are those
// of a run without a fault, which are tried where no call fails any more.
fn try_files(alloc: Global, trial: &Trial, called: &Called, outside: Outside) -> Result<()> {
    let (failing, _) = outside.disk;
    let opening = call(alloc, trial.given().cut(0), outside)?;
    let opened = opening.disk.log.len();
    let since = if failing > called.disk.calls {
        opened
    } else {
        // each call behind the opening is a write or a sync, which the log has
        let before = failing.saturating_sub(1).saturating_sub(opening.disk.calls);
        opened.saturating_add(before as usize)
    };
    if failing > called.disk.calls.saturating_add(1) {
        return Ok(());
    }
    let keepings = keepings_of(alloc, trial, outside)?;
    for calls in since..=called.disk.log.len() {
        for way in WAYS {
            let again = reopened(alloc, trial.given(), &called.disk, calls, way)?;
            if again.outcome.status != 0 || !holds(&keepings, again.text.as_str(), calls) {
                bail!(
                    "call {failing} of the disk fails: a stop after {calls} calls loses something"
                );
            }
        }
    }
    Ok(())
}

// Whether all that was acknowledged by then was kept, by the text of a run over what was left after so many calls.
fn holds(keepings: &[Keeping], text: &str, calls: usize) -> bool {
    for keeping in keepings {
        if !keeping.is_held(text, calls) {
            return false;
        }
    }
    true
}
