//! Moves to a changed site: what they tell, and what is left of the two journals.

use crate::called::{Called, call};
use crate::edge::Edge;
use crate::given::Given;
use crate::groups::Groups;
use crate::images::WAYS;
use crate::outside::SOUND;
use crate::stops::{any_of, opening_of, put_new};
use crate::telling::{say_called, told};
use crate::trial::Trial;
use anyhow::{Result, bail};
use panel_edges::MemoryDisk;
use std::alloc::Global;
use trial_cases::Lines;

/// What a move tells, and what runs then tell at their opening: of the old site over the old journal, of the new site
/// over the new journal, and of the old site over that.
pub(crate) fn try_move(alloc: Global, trial: &Trial) -> Result<String> {
    let given = trial.given();
    let called = call(alloc, given, trial.outside)?;
    let mut lines = Lines::new(alloc);
    lines.say("    ");
    say_called(&mut lines, &called, given.journal);
    lines.count(
        "\n        calls of the new journal's disk ",
        called.target.calls,
    );
    if called.target.bytes.as_slice() == given.target {
        lines.say("; the new journal as it was");
    }
    let journal = called.disk.bytes.as_slice();
    let new_journal = called.target.bytes.as_slice();
    say_opening(alloc, &mut lines, "old site", given, false, journal)?;
    if new_journal.len() > 0 {
        say_opening(alloc, &mut lines, "new site", given, true, new_journal)?;
        say_opening(
            alloc,
            &mut lines,
            "old site over the new journal",
            given,
            false,
            new_journal,
        )?;
    }
    lines.say("\n");
    lines.done()
}

fn say_opening(
    alloc: Global,
    lines: &mut Lines,
    title: &str,
    given: Given,
    is_new: bool,
    journal: &[u8],
) -> Result<()> {
    lines.say("\n        ");
    lines.say(title);
    lines.say(": ");
    lines.say(opened(alloc, given, is_new, journal)?.as_str());
    Ok(())
}

// What a run without a tick of the old or the new site of a move tells over a journal.
fn opened(alloc: Global, given: Given, is_new: bool, journal: &[u8]) -> Result<String> {
    let (place, site) = if is_new {
        (2, given.third)
    } else {
        (1, given.site)
    };
    let Some(name) = given.words.get(place) else {
        bail!("no site");
    };
    let trial = Trial::of_opening(alloc, name.as_str(), site, journal)?;
    opening_of(alloc, &call(alloc, trial.given(), SOUND)?)
}

/// What a run of the old site tells where the move was stopped after each of the calls that the old journal's disk
/// logged, and one of the new site after each of those of the new journal's. One call may leave several files, which
/// then tell several things.
pub(crate) fn try_stops(alloc: Global, trial: &Trial) -> Result<String> {
    let called = call(alloc, trial.given(), trial.outside)?;
    let mut lines = Lines::new(alloc);
    lines.say("    the old journal\n");
    lines.say(stops_of(alloc, trial.given(), false, &called.disk)?.as_str());
    lines.say("    the new journal\n");
    lines.say(stops_of(alloc, trial.given(), true, &called.target)?.as_str());
    lines.done()
}

fn stops_of(alloc: Global, given: Given, is_new: bool, disk: &MemoryDisk) -> Result<String> {
    let mut groups = Groups::new(alloc);
    for calls in 0..=disk.log.len() {
        groups.put(calls as u64, all_left(alloc, given, is_new, disk, calls)?);
    }
    groups.done()
}

// What is told over each of the files that a stop after so many calls may leave, each once.
fn all_left(
    alloc: Global,
    given: Given,
    is_new: bool,
    disk: &MemoryDisk,
    calls: usize,
) -> Result<String> {
    let mut all: Vec<String> = Vec::new(alloc);
    for (last, earlier) in WAYS {
        let mut left = vec![in alloc; earlier; disk.log.len()]?;
        if let Some(bytes) = left.get_mut(calls.saturating_sub(1)) {
            *bytes = last;
        }
        let Ok(image) = disk.cut(alloc, calls, left.as_slice()) else {
            bail!("no memory");
        };
        put_new(&mut all, opened(alloc, given, is_new, image.as_slice())?)?;
    }
    any_of(alloc, &all)
}

/// What a move tells where one call of the outside fails: each fetch, each call of either disk, each write. The old
/// journal goes on telling what it told.
pub(crate) fn try_failures(alloc: Global, trial: &Trial) -> Result<String> {
    let whole = call(alloc, trial.given(), trial.outside)?;
    let mut lines = Lines::new(alloc);
    let edges = [
        ("    fetches\n", Edge::Shelf, whole.fetches),
        (
            "    calls of the old journal\n",
            Edge::Disk,
            whole.disk.calls,
        ),
        (
            "    calls of the new journal\n",
            Edge::Target,
            whole.target.calls,
        ),
        ("    writes\n", Edge::Output, whole.writes),
    ];
    for (title, edge, calls) in edges {
        lines.say(title);
        lines.say(failures_of(alloc, trial, edge, calls)?.as_str());
    }
    lines.done()
}

fn failures_of(alloc: Global, trial: &Trial, edge: Edge, calls: u64) -> Result<String> {
    let given = trial.given();
    let before = opened(alloc, given, false, given.journal)?;
    let mut groups = Groups::new(alloc);
    for done in 0..calls.saturating_add(1).min(100_000) {
        let called: Called = call(alloc, given, trial.outside.failing(edge, done + 1))?;
        let after = opened(alloc, given, false, called.disk.bytes.as_slice())?;
        if after.as_str() != before.as_str() {
            bail!("a call fails: the old journal lost something");
        }
        groups.put(done + 1, told(alloc, &called)?);
    }
    groups.done()
}
