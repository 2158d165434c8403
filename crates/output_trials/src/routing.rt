//! What the routing outputs of a panel are at.

ghost use Rattle.site_types.specs.Valid.{IsValid};

use anyhow::{Result, bail};
use routing_outputs::{Routing, RoutingState};
use site_types::{Event, Site, has_bit_32};
use std::alloc::Global;
use tick_units::Tick;
use trial_cases::{History, Lines, event_of, outputs_of, say_output};

/// Each tick in which an output of panel 1 comes to be at something else, with all that aren't idle.
/// Confirmations come before the turn of their tick.
pub(crate) fn route(alloc: Global, site: &Site, line: &str) -> Result<String>
    requires { IsValid site.now }
{
    let history = History::read(alloc, line)?;
    let mut routing = Routing::new(site, 1, site.profile().routing());
    let mut on = 0;
    let mut before = states_of(alloc, site, 1, &routing)?;
    let mut lines = Lines::new(alloc);
    for tick in 1..=history.last {
        for step in &history.steps {
            if step.tick == tick {
                match step.words.strip_prefix("on ") {
                    Some(names) => on = outputs_of(site, names)?,
                    None => confirm(site, step.words, &mut routing)?,
                }
            }
        }
        routing.turn(Tick(tick), on);
        let after = states_of(alloc, site, 1, &routing)?;
        if after.as_str() != before.as_str() {
            lines.tick(tick, &after);
        }
        before = after;
    }
    lines.done()
}

// A confirmation comes.
fn confirm(site: &Site, words: &str, routing: &mut Routing) -> Result<()>
    requires { IsValid site.now }
{
    let Event::Confirmed { output } = event_of(site, words)? else {
        bail!("no confirmation: {words}");
    };
    match site.outputs.get(output as usize) {
        Some(output) if output.number >= 1 && output.number <= 32 => {
            routing.confirm(output.number);
        }
        _ => bail!("no output of the site: {words}"),
    }
    Ok(())
}

/// What the outputs of a panel are at, where all numbers are on and the time for confirming is over at once:
/// before and after each is confirmed.
pub(crate) fn confirm_all(alloc: Global, site: &Site, panel: &str) -> Result<String> {
    let panel = match panel {
        "panel 1" => 1,
        "panel 2" => 2,
        _ => bail!("{panel} is neither panel 1 nor panel 2"),
    };
    let mut routing = Routing::new(site, panel, 0);
    routing.turn(Tick(1), u32::MAX);
    let before = states_of(alloc, site, panel, &routing)?;
    for number in 1..33 {
        routing.confirm(number);
    }
    let after = states_of(alloc, site, panel, &routing)?;
    let mut lines = Lines::new(alloc);
    lines.say("    ");
    lines.say(&before);
    lines.say("; once confirmed ");
    lines.say(&after);
    lines.say("\n");
    lines.done()
}

// The outputs that aren't idle, each with what it is at, or `nothing`.
fn states_of(alloc: Global, site: &Site, panel: u8, routing: &Routing) -> Result<String> {
    let mut lines = Lines::new(alloc);
    for number in 1..33 {
        let state = routing.state(number);
        if state != RoutingState::Idle {
            lines.item(", ", "");
            say_output(&mut lines, site, panel, number);
            lines.say(state_word(state));
        }
        if !is_in_masks(routing, number, state) {
            lines.say(" (otherwise by the masks)");
        }
    }
    if lines.is_empty() {
        lines.say("nothing");
    }
    lines.done()
}

fn state_word(state: RoutingState) -> &'static str {
    match state {
        RoutingState::Idle => " idle",
        RoutingState::Waiting => " waiting",
        RoutingState::Confirmed => " confirmed",
        RoutingState::Unconfirmed => " unconfirmed",
    }
}

// Whether the masks of confirmed and unconfirmed outputs say the same of an output as its state.
fn is_in_masks(routing: &Routing, number: u8, state: RoutingState) -> bool {
    number >= 1
        && number <= 32
        && has_bit_32(routing.confirmed(), number - 1) == (state == RoutingState::Confirmed)
        && has_bit_32(routing.unconfirmed(), number - 1) == (state == RoutingState::Unconfirmed)
}
