//! When sounders are quiet.

use crate::numbers::{check_numbers, next_number};
use anyhow::{Result, bail};
use sounder_control::Silence;
use std::alloc::Global;
use trial_cases::{History, Lines, Words};

/// Each tick in which the sounders are quiet and weren't before, or the other way round. `released 5 0` tells the zones
/// that are released from a tick on, a mask for each panel, 0 where there is none; `silence` and `resound` come behind
/// the turn of their tick.
pub(crate) fn silence(alloc: Global, line: &str) -> Result<String> {
    let history = History::read(alloc, line)?;
    let mut silence = Silence::new();
    let mut lines = Lines::new(alloc);
    let mut zones = [0; 8];
    let mut was_quiet = false;
    for tick in 1..=history.last {
        zones = released_at(&history, tick, zones)?;
        let is_quiet = silence.quiet(&zones);
        if is_quiet != was_quiet {
            lines.tick(tick, if is_quiet { "quiet" } else { "sounding" });
        }
        was_quiet = is_quiet;
        do_steps(&history, tick, &mut silence)?;
    }
    if lines.is_empty() {
        lines.say("    sounding throughout\n");
    }
    lines.done()
}

fn released_at(history: &History, tick: u64, before: [u32; 8]) -> Result<[u32; 8]> {
    let mut zones = before;
    for step in history.steps.iter() {
        if step.tick == tick {
            if let Some(masks) = step.words.strip_prefix("released ") {
                check_numbers(masks)?;
                zones = masks_of(Words::of(masks));
            }
        }
    }
    Ok(zones)
}

fn masks_of(mut words: Words) -> [u32; 8] {
    [
        next_number(&mut words),
        next_number(&mut words),
        next_number(&mut words),
        next_number(&mut words),
        next_number(&mut words),
        next_number(&mut words),
        next_number(&mut words),
        next_number(&mut words),
    ]
}

fn do_steps(history: &History, tick: u64, silence: &mut Silence) -> Result<()> {
    for step in history.steps.iter() {
        if step.tick == tick {
            match step.words {
                "silence" => silence.silence(),
                "resound" => silence.resound(),
                words if words.starts_with("released ") => {}
                words => bail!("nothing that comes to sounders: {words}"),
            }
        }
    }
    Ok(())
}
