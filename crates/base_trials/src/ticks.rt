//! Ticks, and a switch that is set in one.

use anyhow::{Result, bail};
use std::alloc::Global;
use tick_units::{Switch, Tick, TickLimit, next_tick};
use trial_cases::{Lines, Words};

/// What a switch is at that is off at first and is set on in a tick: in that tick, and in the next one.
pub(crate) fn switch(alloc: Global, mut words: Words) -> Result<String> {
    let tick = words.place()? as u64;
    let mut switch = Switch::new(false);
    if tick == 0 {
        bail!("no tick");
    }
    switch.set(true, Tick(tick));
    let mut lines = Lines::new(alloc);
    say_switch(&mut lines, tick, switch.at(Tick(tick)));
    say_switch(&mut lines, tick + 1, switch.at(Tick(tick + 1)));
    lines.done()
}

fn say_switch(lines: &mut Lines, tick: u64, is_on: bool) {
    lines.tick(tick, if is_on { "on" } else { "off" });
}

/// The tick behind one.
pub(crate) fn next(alloc: Global, mut words: Words) -> Result<String> {
    let next = next_tick(Tick(words.number()?));
    let mut lines = Lines::new(alloc);
    match next {
        Ok(tick) => lines.count("    ", tick.0),
        Err(TickLimit) => lines.say("    none"),
    }
    lines.say("\n");
    lines.done()
}
