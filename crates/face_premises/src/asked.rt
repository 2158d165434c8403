//! The operations that were asked for in a run, and those that were done.

use anyhow::Result;
use compared_runs::Told;
use plain_history::{Done, Moment};
use site_types::{Event, Operation};
use std::alloc::Global;
use tick_units::Tick;

/// An operation that was asked for. Its number is its place in the list and one.
#[derive(Clone, Copy)]
pub(crate) struct Asked {
    pub(crate) tick: u64,
    pub(crate) panel: u8,
    pub(crate) operation: Operation,
    /// In which tick it was done; 0 where it wasn't.
    pub(crate) done: u64,
}

/// All that were asked for, in the order in which they were.
pub(crate) fn all_asked(alloc: Global, moments: &[Moment], told: &[Told]) -> Result<Vec<Asked>> {
    let mut asked = Vec::new(alloc);
    let mut tick: u64 = 0;
    for moment in moments {
        match moment {
            Moment::Began => tick = tick.saturating_add(1),
            Moment::Happened(
                Event::Op {
                    panel,
                    operation,
                    ..
                },
            ) => asked.push(Asked {
                tick,
                panel: *panel,
                operation: *operation,
                done: 0,
            })?,
            _ => {}
        }
    }
    let mut now: u64 = 0;
    for one in told {
        now = now.saturating_add(1);
        for words in one.answers.split(", ") {
            mark_done(&mut asked, words, now);
        }
    }
    Ok(asked)
}

// Marks the operation that an answer `op 3 done` tells as done.
fn mark_done(asked: &mut [Asked], words: &str, now: u64) {
    let Some(rest) = words.strip_prefix("op ") else {
        return;
    };
    let Some(number) = rest.strip_suffix(" done") else {
        return;
    };
    if let Ok(number) = number.parse::<usize>() {
        if let Some(one) = asked.get_mut(number.saturating_sub(1)) {
            one.done = now;
        }
    }
}

/// The operations that were done, by their ticks.
pub(crate) fn all_done(alloc: Global, asked: &[Asked], last: u64) -> Result<Vec<Done>> {
    let mut done = Vec::new(alloc);
    for tick in 1..=last {
        for one in asked {
            if one.done == tick {
                done.push(Done {
                    tick: Tick(tick),
                    panel: one.panel,
                    operation: one.operation,
                })?;
            }
        }
    }
    Ok(done)
}
