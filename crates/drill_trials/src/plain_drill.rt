//! The counts of a drill, by the plain program of the rules.

ghost use Rattle.tick_units.specs.Orders.{IsPanelCount};

use crate::counting::count;
use crate::telling::{Length, file_of, length_of, line_of, site_of};
use anyhow::{Result, bail};
use drill_record::{Drawer, Drawn, reversed_order};
use face_text::{Face, Timeline};
use plain_history::Moment;
use plain_panel::timeline;
use site_types::Retained;
use std::alloc::{AllocError, Global};
use tick_units::Order;
use trial_cases::{Case, Lines};
use trial_records::push_tick;

/// The line of a drill, and whether the plain program counts the same.
pub(crate) fn compare(alloc: Global, case: &Case) -> Result<String> {
    let length = length_of(case)?;
    let drilled = line_of(alloc, length)?;
    let plain = plain_line(alloc, length)?;
    let mut lines = Lines::new(alloc);
    lines.say("    ");
    lines.say(plain.as_str());
    if plain == drilled {
        lines.say("    as the drill\n");
    } else {
        lines.say("    not as the drill: ");
        lines.say(drilled.as_str());
    }
    lines.done()
}

// The line by the plain program.
fn plain_line(alloc: Global, length: Length) -> Result<String> {
    let text = file_of(alloc)?;
    let site = site_of(alloc, text.as_slice())?;
    let moments = moments_of(alloc, site.panels, length)?;
    let Ok(run) = timeline(alloc, &site, &Retained::empty(), moments.as_slice()) else {
        bail!("no memory");
    };
    count(alloc, &site, last_faces(&run), length)
}

// The faces after the last tick.
fn last_faces(run: &Timeline) -> &[Face] {
    match run.steps.as_slice().last() {
        Some(step) => step.faces.as_slice(),
        None => run.opened.as_slice(),
    }
}

// What befalls the site by the record of a seed.
fn moments_of(alloc: Global, panels: u8, length: Length) -> Result<Vec<Moment>>
    requires { IsPanelCount panels }
{
    let canonical = Order::canonical(panels);
    let reversed = reversed_order(panels);
    let mut drawer = Drawer::new(length.seed);
    let mut moments = Vec::new(alloc);
    for _ in 0..length.ticks {
        let drawn = drawer.next_tick();
        let order = if drawn.reversed {
            &reversed
        } else {
            &canonical
        };
        push_drawn(&mut moments, &drawn, order)?;
    }
    Ok(moments)
}

// Puts the moments of a tick behind those before it.
fn push_drawn(moments: &mut Vec<Moment>, drawn: &Drawn, order: &Order) -> Result<(), AllocError> {
    match drawn.event {
        Some(event) => push_tick(moments, &[event], order, false),
        None => push_tick(moments, &[], order, false),
    }
}
