//! Which faults of supplies are shown.

use crate::numbers::{check_numbers, next_number};
use anyhow::{Result, bail};
use site_types::{SupplyKind, Waits};
use std::alloc::Global;
use supply_monitor::Supply;
use tick_units::Tick;
use trial_cases::{History, Lines, Words, look_up};

/// Each report by its words.
const REPORTS: [(&str, (SupplyKind, bool)); 8] = [
    ("mains bad", (SupplyKind::Mains, true)),
    ("mains ok", (SupplyKind::Mains, false)),
    ("standby bad", (SupplyKind::Standby, true)),
    ("standby ok", (SupplyKind::Standby, false)),
    ("voltage bad", (SupplyKind::Voltage, true)),
    ("voltage ok", (SupplyKind::Voltage, false)),
    ("charger bad", (SupplyKind::Charger, true)),
    ("charger ok", (SupplyKind::Charger, false)),
];

/// The mask of faults before and behind the turn of each tick in which they aren't what the turn before showed. The
/// words are the waits; in each tick the last report comes again.
pub(crate) fn supply(alloc: Global, words: Words, line: &str) -> Result<String> {
    let history = History::read(alloc, line)?;
    check_numbers(words.rest())?;
    let mut supply = Supply::new(&waits_of(words));
    let mut lines = Lines::new(alloc);
    let mut report = None;
    let mut shown = 0;
    for tick in 1..=history.last {
        report = report_at(&history, tick, report)?;
        if let Some((kind, is_bad)) = report {
            supply.read(kind, is_bad);
        }
        let before = supply.faults();
        supply.turn(Tick(tick));
        let after = supply.faults();
        if before != shown || after != shown {
            say_faults(&mut lines, tick, before, after);
        }
        shown = after;
    }
    lines.done()
}

fn waits_of(mut words: Words) -> Waits {
    Waits {
        mains: next_wait(&mut words),
        standby: next_wait(&mut words),
        voltage: next_wait(&mut words),
        charger: next_wait(&mut words),
    }
}

// The next wait, at most 65,535 ticks.
fn next_wait(words: &mut Words) -> u16 {
    next_number(words).min(65_535) as u16
}

// The report of a tick, or the last one before.
fn report_at(
    history: &History,
    tick: u64,
    last: Option<(SupplyKind, bool)>,
) -> Result<Option<(SupplyKind, bool)>> {
    let mut report = last;
    for step in history.steps.iter() {
        if step.tick == tick {
            report = look_up(&REPORTS, step.words);
            if report.is_none() {
                bail!("no report of a supply: {}", step.words);
            }
        }
    }
    Ok(report)
}

fn say_faults(lines: &mut Lines, tick: u64, before: u8, after: u8) {
    lines.count("    tick ", tick);
    lines.count(": before its turn ", before as u64);
    lines.count(", behind it ", after as u64);
    lines.say("\n");
}
