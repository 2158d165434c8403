//! What the panels of a ring keep and hand on after single turns, all in tick 1.

ghost use Rattle.std.specs.Prelude.{◌≡◌, ◌≤◌};

use crate::orders::panels_of;
use crate::ring_steps::{RingStep, set_link, word};
use anyhow::{Result, bail};
use panel_links::Ring;
use std::alloc::Global;
use tick_units::Tick;
use trial_cases::{Lines, Words};

/// What each panel of so many then tells. A panel whose alarm is told has its turn.
pub(crate) fn tell_words(alloc: Global, words: Words, steps: &str) -> Result<String> {
    let panels = panels_of(words.rest())?;
    let mut ring = Ring::new(panels);
    for step in steps.split(", ") {
        take_step(&mut ring, panels, RingStep::read(step)?)?;
    }
    let mut lines = Lines::new(alloc);
    for panel in 1..=panels {
        say_panel(&mut lines, &ring, panels, panel);
    }
    lines.done()
}

fn take_step(ring: &mut Ring, panels: u8, step: RingStep) -> Result<()>
    requires { ring.old.panels ≡ panels }
    ensures { ring.new.panels ≡ panels }
{
    match step {
        RingStep::Link { link, is_up } => set_link(ring, link, is_up),
        RingStep::Alarm { panel, zones } => {
            if panel < 1 || panel > panels {
                bail!("the ring hasn't this panel");
            }
            ring.turn(Tick(1), panel, word(1, zones));
            Ok(())
        }
    }
}

fn say_panel(lines: &mut Lines, ring: &Ring, panels: u8, panel: u8)
    requires size { ring.now.panels ≡ panels }
    requires panel { (1 ≤ panel) × (panel ≤ panels) }
    requires few { panels ≤ 8 }
{
    lines.count("    panel ", panel as u64);
    lines.count(": links down ", ring.links_down(panel) as u64);
    for of in 1..=panels {
        lines.count("; of panel ", of as u64);
        lines.count(" alarm ", ring.word(panel, of).alarm as u64);
        lines.count(" in tick ", ring.heard(panel, of).0);
    }
    lines.say("; hands on");
    for word in ring.frame(panel, Tick(2)).words {
        lines.count(" ", word.alarm as u64);
    }
    lines.say("\n");
}
