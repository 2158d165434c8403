//! What held at the end of each tick, tick 0 being what held before the first.

use anyhow::Result;
use plain_history::Moment;
use site_types::Event;
use std::alloc::Global;

/// What stood at the end of each tick by the latest report on a thing: `told` gives what an event reports of it.
pub(crate) fn track<F: Fn(&Event) -> Option<bool>>(
    alloc: Global,
    moments: &[Moment],
    first: bool,
    told: F,
) -> Result<Vec<bool>>
    requires { F.IsAlwaysCallable told }
{
    let mut track = Vec::new(alloc);
    let mut now = first;
    for moment in moments {
        match moment {
            Moment::Began => track.push(now)?,
            Moment::Happened(event) => {
                if let Some(value) = told(event) {
                    now = value;
                }
            }
            Moment::Turned { .. } | Moment::Kept { .. } => {}
        }
    }
    track.push(now)?;
    Ok(track)
}

/// Whether what a track tells held at the end of a tick.
pub(crate) fn held_at(track: &[bool], tick: u64) -> bool {
    match track.get(tick as usize) {
        Some(holds) => *holds,
        None => false,
    }
}

/// For how many ticks without a break it held up to the end of one, tick 0 not counted.
pub(crate) fn run_up_to(track: &[bool], tick: u64) -> u64 {
    let mut run: u64 = 0;
    for at in 1..=tick {
        run = if held_at(track, at) {
            run.saturating_add(1)
        } else {
            0
        };
    }
    run
}

/// The first tick after a given one from which on it held for so many, all of them by now; a tick that never comes,
/// where there is none.
pub(crate) fn held_from(track: &[bool], after: u64, now: u64, length: u64) -> u64 {
    let mut run: u64 = 0;
    for tick in after.saturating_add(1)..=now {
        run = if held_at(track, tick) {
            run.saturating_add(1)
        } else {
            0
        };
        if run >= length {
            return tick.saturating_add(1).saturating_sub(length);
        }
    }
    NEVER
}

/// A tick that never comes.
pub(crate) const NEVER: u64 = 1_000_000_000_000;
