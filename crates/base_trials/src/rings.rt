//! A ring of panels, tick by tick.

ghost use Rattle.std.specs.Prelude.{◌≡◌, ◌≤◌, ◌<◌};

use crate::orders::panels_of;
use crate::ring_steps::{RingStep, set_link, word};
use anyhow::{Result, bail};
use panel_links::Ring;
use std::alloc::Global;
use tick_units::Tick;
use trial_cases::{History, Lines, Words};

/// After how many ticks without a newer word a panel is silent.
const LIMIT: u64 = 60;

/// In which order the panels of a ring have their turns.
#[derive(Clone, Copy)]
struct Turns {
    panels: u8,
    /// From the last panel to the first, each with its word of the tick before. Else from the first to the last, each
    /// with its word of the tick.
    is_late: bool,
    ghost few: { (1 ≤ panels) × (panels ≤ 8) },
}

impl Turns {
    // The order that words spell: how many panels, and `late` or `early`.
    fn read(mut words: Words) -> Result<Turns> {
        let panels = panels_of(words.next())?;
        let order = words.rest();
        if order != "late" && order != "early" {
            bail!("no order: {order}");
        }
        let is_late = order == "late";
        Ok(Turns { panels, is_late })
    }

    // The panel that has a turn, from 0.
    fn panel_at(&self, turn: u8) -> u8
        requires { turn < self.now.panels }
        ensures { (1 ≤ result) × (result ≤ self.now.panels) }
    {
        if self.is_late {
            self.panels - turn
        } else {
            turn + 1
        }
    }
}

/// What was told of a ring.
#[derive(Clone, Copy)]
struct Told {
    /// The panels that each panel finds silent.
    silent: [u8; 8],
    /// The zones in alarm that each panel keeps of each.
    alarms: [[u32; 8]; 8],
}

/// Which panels each finds silent before its turn, and which alarms each keeps of others at the end of a tick: a line
/// for each tick in which it is otherwise than before.
pub(crate) fn turn_ring(alloc: Global, words: Words, line: &str) -> Result<String> {
    let turns = Turns::read(words)?;
    let history = History::read(alloc, line)?;
    let mut ring = Ring::new(turns.panels);
    let mut told = Told {
        silent: [0; 8],
        alarms: [[0; 8]; 8],
    };
    let mut alarms = [0; 8];
    let mut lines = Lines::new(alloc);
    for tick in 1..=history.last {
        let earlier = alarms;
        take_steps(&history, tick, &mut ring, &mut alarms)?;
        let made = if turns.is_late { earlier } else { alarms };
        turn_each(&mut ring, turns, tick, &made, &mut told, &mut lines);
        say_each(&ring, turns, tick, &mut told, &mut lines);
    }
    lines.done()
}

fn take_steps(history: &History, tick: u64, ring: &mut Ring, alarms: &mut [u32; 8]) -> Result<()>
    ensures { ring.new.panels ≡ ring.old.panels }
{
    for step in history.steps.iter() {
        if step.tick == tick {
            match RingStep::read(step.words)? {
                RingStep::Link { link, is_up } => set_link(ring, link, is_up)?,
                RingStep::Alarm { panel, zones } => set_alarm(alarms, panel, zones)?,
            }
        }
    }
    Ok(())
}

fn set_alarm(alarms: &mut [u32; 8], panel: u8, zones: u32) -> Result<()> {
    if panel < 1 || panel > 8 {
        bail!("a ring has panels 1 to 8");
    }
    alarms[panel as usize - 1] = zones;
    Ok(())
}

// Gives each panel its turn, with the zones that are in alarm there.
fn turn_each(
    ring: &mut Ring,
    turns: Turns,
    tick: u64,
    alarms: &[u32; 8],
    told: &mut Told,
    lines: &mut Lines,
)
    requires { ring.old.panels ≡ turns.panels }
    ensures { ring.new.panels ≡ turns.panels }
{
    let stamp = if turns.is_late {
        tick.saturating_sub(1)
    } else {
        tick
    };
    for turn in 0..turns.panels {
        let panel = turns.panel_at(turn);
        let silent = ring.silent(panel, Tick(tick), LIMIT);
        if silent != told.silent[panel as usize - 1] {
            say_silent(lines, tick, panel, silent);
            told.silent[panel as usize - 1] = silent;
        }
        ring.turn(Tick(tick), panel, word(stamp, alarms[panel as usize - 1]));
    }
}

fn say_silent(lines: &mut Lines, tick: u64, panel: u8, silent: u8) {
    lines.count("    tick ", tick);
    lines.count(": panel ", panel as u64);
    lines.count(" finds silent ", silent as u64);
    lines.say("\n");
}

// Tells what each panel keeps of others and didn't before.
fn say_each(ring: &Ring, turns: Turns, tick: u64, told: &mut Told, lines: &mut Lines)
    requires { ring.now.panels ≡ turns.panels }
{
    for panel in 1..=turns.panels {
        for of in 1..=turns.panels {
            let alarm = ring.word(panel, of).alarm;
            let last = &mut told.alarms[panel as usize - 1][of as usize - 1];
            if alarm != *last && of != panel {
                say_heard(lines, tick, panel, of, alarm);
            }
            *last = alarm;
        }
    }
}

fn say_heard(lines: &mut Lines, tick: u64, panel: u8, of: u8, alarm: u32) {
    lines.count("    tick ", tick);
    lines.count(": panel ", panel as u64);
    lines.count(" keeps of panel ", of as u64);
    lines.count(" alarm ", alarm as u64);
    lines.say("\n");
}
