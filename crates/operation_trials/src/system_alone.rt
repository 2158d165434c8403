//! Long histories, at the system alone.

use crate::operations::say_all;
use anyhow::Result;
use compared_runs::{by_system, history_blocks};
use trial_cases::{Case, History, Lines, site_at};

/// What the system tells of a history, each tick having its turns in the canonical order.
pub(crate) fn say_system(rt: &HostRuntime, case: &Case) -> Result<String> {
    let alloc = rt.alloc();
    let site = site_at(rt, case.subject)?;
    let blocks = history_blocks(alloc, &site, &History::read(alloc, case.rest)?)?;
    let twin = site_at(rt, case.subject)?;
    let played = by_system(alloc, twin, &blocks, false, Vec::new(alloc))?;
    let mut lines = Lines::new(alloc);
    say_all(alloc, &mut lines, &site, &played.told)?;
    lines.done()
}
