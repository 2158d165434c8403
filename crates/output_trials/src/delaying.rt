//! Which outputs of panel 1 are let through.

ghost use Rattle.site_types.specs.Valid.{IsValid};

use crate::delay_step::DelayStep;
use anyhow::Result;
use output_delays::Delays;
use site_types::{Operation, Requests, Site};
use std::alloc::Global;
use tick_units::Tick;
use trial_cases::{History, Lines, say_outputs};

/// Each tick in which other outputs are let through than before, with all that are.
pub(crate) fn delay(alloc: Global, site: &Site, line: &str) -> Result<String>
    requires { IsValid site.now }
{
    let history = History::read(alloc, line)?;
    let mut delays = Delays::new(site, 1, true);
    let mut requests = Requests {
        asked: 0,
        manual: 0,
    };
    let mut before = 0;
    let mut lines = Lines::new(alloc);
    for tick in 1..=history.last {
        take_steps(site, &history, tick, &mut delays, &mut requests)?;
        let through = delays.turn(Tick(tick), &requests);
        do_operations(site, &history, tick, &mut delays)?;
        if through != before {
            lines.count("    tick ", tick);
            lines.say(": ");
            say_outputs(&mut lines, site, 1, through);
            lines.say("\n");
        }
        before = through;
    }
    lines.done()
}

// What comes before the turn of a tick.
fn take_steps(
    site: &Site,
    history: &History,
    tick: u64,
    delays: &mut Delays,
    requests: &mut Requests,
) -> Result<()>
    requires { IsValid site.now }
{
    for step in &history.steps {
        if step.tick == tick {
            match DelayStep::read(site, step.words)? {
                DelayStep::Asked(outputs) => requests.asked = outputs,
                DelayStep::ByHand(outputs) => requests.manual = outputs,
                DelayStep::Early(operation) => apply(delays, operation, tick),
                DelayStep::Done(_) => {}
            }
        }
    }
    Ok(())
}

// What is done behind the turn of a tick.
fn do_operations(site: &Site, history: &History, tick: u64, delays: &mut Delays) -> Result<()>
    requires { IsValid site.now }
{
    for step in &history.steps {
        if step.tick == tick {
            if let DelayStep::Done(operation) = DelayStep::read(site, step.words)? {
                apply(delays, operation, tick);
            }
        }
    }
    Ok(())
}

fn apply(delays: &mut Delays, operation: Operation, tick: u64) {
    match operation {
        Operation::Override => delays.override_now(Tick(tick)),
        Operation::Delays(on) => delays.set_delays(on),
        _ => {}
    }
}
