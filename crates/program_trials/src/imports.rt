//! Imports into a register in memory: what they tell, and what the register keeps then.

use crate::called::{Called, call, call_over};
use crate::edge::Edge;
use crate::groups::Groups;
use crate::outside::SOUND;
use crate::telling::{say_ending, told};
use crate::trial::Trial;
use anyhow::{Result, bail};
use std::alloc::Global;
use trial_cases::Lines;

/// What an import tells and leaves, and the same once more over the register that it left.
pub(crate) fn try_import(alloc: Global, trial: &Trial) -> Result<String> {
    let first = call(alloc, trial.given(), trial.outside)?;
    let mut lines = Lines::new(alloc);
    lines.say("    ");
    say_import(&mut lines, &first);
    let again = call_over(alloc, trial.given(), SOUND, first.into_tables())?;
    lines.say("\n    again ");
    say_import(&mut lines, &again);
    lines.say("\n");
    lines.done()
}

// Says how an import ended, its text, and how much the register keeps then.
fn say_import(lines: &mut Lines, called: &Called) {
    say_ending(lines, called);
    lines.count("\n        fetches ", called.fetches);
    lines.count(", writes ", called.writes);
    lines.count(", calls of the keeper ", called.keeper.calls);
    lines.count("; visits ", called.keeper.tables.visits.len() as u64);
    lines.count(", tests ", called.keeper.tables.tests.len() as u64);
}

/// What an import tells where one call of the outside fails: each fetch, each call of the keeper, each write. Made
/// again it leaves and tells what one that never fails does.
pub(crate) fn try_failures(alloc: Global, trial: &Trial) -> Result<String> {
    let whole = call(alloc, trial.given(), trial.outside)?;
    let mut lines = Lines::new(alloc);
    let edges = [
        ("    fetches\n", Edge::Shelf, whole.fetches),
        (
            "    calls of the keeper\n",
            Edge::Keeper,
            whole.keeper.calls,
        ),
        ("    writes\n", Edge::Output, whole.writes),
    ];
    for (title, edge, calls) in edges {
        lines.say(title);
        lines.say(failures_of(alloc, trial, &whole, edge, calls)?.as_str());
    }
    lines.done()
}

fn failures_of(
    alloc: Global,
    trial: &Trial,
    whole: &Called,
    edge: Edge,
    calls: u64,
) -> Result<String> {
    let mut groups = Groups::new(alloc);
    for done in 0..calls.min(100_000) {
        let called = call(alloc, trial.given(), trial.outside.failing(edge, done + 1))?;
        let words = told(alloc, &called)?;
        let again = call_over(alloc, trial.given(), trial.outside, called.into_tables())?;
        if !again.is_told_by(whole) || !keeps_same(&again, whole) {
            bail!("a call fails: the same import does not complete it");
        }
        groups.put(done + 1, words);
    }
    groups.done()
}

// Whether the registers of two calls keep the same.
fn keeps_same(one: &Called, other: &Called) -> bool {
    one.keeper.tables.visits.as_slice() == other.keeper.tables.visits.as_slice()
        && one.keeper.tables.tests.as_slice() == other.keeper.tables.tests.as_slice()
}
