//! Drawn records with operations.

ghost use Rattle.tick_units.specs.Orders.{IsPanelCount};
ghost use Rattle.site_types.specs.Valid.{IsValid};

use crate::pace::Pace;
use anyhow::Result;
use rand_pcg::Pcg32;
use site_types::{Output, OutputKind, Site};
use std::alloc::{AllocError, Global};
use tick_units::{Order, Seat, Task};
use trial_cases::{Lines, below};

/// A drawn record: in its ticks events of points, cables, supplies, links, outputs and operations, and in most a drawn
/// order of turns.
pub fn drawn_record(alloc: Global, site: &Site, pace: &Pace, draws: &mut Pcg32) -> Result<String>
    requires { IsValid site.now }
{
    let mut lines = Lines::new(alloc);
    for tick in 1..=pace.ticks {
        lines.count("tick ", tick);
        lines.say("\n");
        say_tick(alloc, &mut lines, site, pace, draws)?;
    }
    lines.say("end\n");
    lines.done()
}

// What stands in a tick behind its line.
fn say_tick(
    alloc: Global,
    lines: &mut Lines,
    site: &Site,
    pace: &Pace,
    draws: &mut Pcg32,
) -> Result<()>
    requires { IsValid site.now }
{
    if below(draws, 4) > 0 {
        say_order(alloc, lines, site.panels, draws)?;
    }
    if pace.one_in > 1 && below(draws, pace.one_in) > 0 {
        return Ok(());
    }
    say_reports(alloc, lines, site, draws)?;
    say_operations(alloc, lines, site, draws)
}

fn say_reports(alloc: Global, lines: &mut Lines, site: &Site, draws: &mut Pcg32) -> Result<()> {
    for _event in 0..below(draws, 3) {
        say_report(alloc, lines, site, draws)?;
    }
    Ok(())
}

fn say_operations(alloc: Global, lines: &mut Lines, site: &Site, draws: &mut Pcg32) -> Result<()> {
    if below(draws, 2) == 0 {
        for _operation in 0..below(draws, 7) {
            say_operation(alloc, lines, site, draws)?;
        }
    }
    Ok(())
}

// One of these words.
fn one_of<'a>(words: &[&'a str], draws: &mut Pcg32) -> &'a str {
    let place = below(draws, words.len() as u64);
    match words.get(place as usize) {
        Some(word) => word,
        None => "",
    }
}

fn say_order(alloc: Global, lines: &mut Lines, panels: u8, draws: &mut Pcg32) -> Result<()>
    requires { IsPanelCount panels }
{
    let seats = drawn_seats(alloc, panels, draws)?;
    lines.say("order");
    for seat in &seats {
        say_seat(lines, *seat);
    }
    lines.say("\n");
    Ok(())
}

// An order of turns: each seat is put before or behind those that stand already.
fn drawn_seats(alloc: Global, panels: u8, draws: &mut Pcg32) -> Result<Vec<Seat>, AllocError>
    requires { IsPanelCount panels }
{
    let canonical = Order::canonical(panels);
    let mut seats: Vec<Seat> = Vec::new(alloc);
    for place in 0..canonical.len() {
        let at = below(draws, seats.len().saturating_add(1) as u64);
        seats.insert((at as usize).min(seats.len()), canonical.seat(place))?;
    }
    Ok(seats)
}

fn say_seat(lines: &mut Lines, seat: Seat) {
    let letter = match seat.task {
        Task::Poll => " p",
        Task::Decide => " d",
        Task::Supply => " s",
        Task::Desk => " o",
        Task::Hold => " h",
        Task::Link => " l",
        Task::Effect => " e",
        Task::Drive => " r",
        Task::Keep => " k",
    };
    lines.say(letter);
    if seat.task != Task::Keep {
        lines.number(seat.panel as u64);
    }
}

// An event of a point, or at times of a cable, a supply, a link or an output.
fn say_report(alloc: Global, lines: &mut Lines, site: &Site, draws: &mut Pcg32) -> Result<()> {
    match below(draws, 12) {
        0 => say_cable(lines, site, draws),
        1 => say_supply(lines, site, draws),
        2 if site.panels > 1 => say_link(lines, site, draws),
        3 | 4 if has_confirming(site) => say_confirmation(alloc, lines, site, draws)?,
        _ => say_point(alloc, lines, site, draws)?,
    }
    lines.say("\n");
    Ok(())
}

fn say_point(alloc: Global, lines: &mut Lines, site: &Site, draws: &mut Pcg32) -> Result<()> {
    lines.say("point ");
    let panel = drawn_panel(site, draws);
    lines.say(one_of(&points_of(alloc, site, panel)?, draws));
    lines.say(one_of(&[" alarm", " alarm", " quiet", " gone"], draws));
    Ok(())
}

fn say_cable(lines: &mut Lines, site: &Site, draws: &mut Pcg32) {
    let place = below(draws, site.loops.len() as u64);
    if let Some(line) = site.loops.get(place as usize) {
        lines.count("cable ", line.panel as u64);
        lines.count(" ", line.line as u64);
        lines.count(" ", below(draws, (line.last as u64).saturating_add(1)));
        lines.say(one_of(&[" sound", " open", " short"], draws));
    }
}

fn say_supply(lines: &mut Lines, site: &Site, draws: &mut Pcg32) {
    lines.count("supply ", drawn_panel(site, draws));
    lines.say(one_of(&[" mains", " standby", " voltage", " charger"], draws));
    lines.say(one_of(&[" ok", " bad"], draws));
}

fn say_link(lines: &mut Lines, site: &Site, draws: &mut Pcg32) {
    lines.count("link ", drawn_panel(site, draws));
    lines.say(one_of(&[" up", " up", " down"], draws));
}

fn say_confirmation(
    alloc: Global,
    lines: &mut Lines,
    site: &Site,
    draws: &mut Pcg32,
) -> Result<()> {
    lines.say("routing ");
    lines.say(one_of(&confirming_of(alloc, site)?, draws));
    lines.say(" confirmed");
    Ok(())
}

// An operation at a panel on something of it, with a code of any level or a wrong one.
fn say_operation(alloc: Global, lines: &mut Lines, site: &Site, draws: &mut Pcg32) -> Result<()> {
    let panel = drawn_panel(site, draws);
    lines.count("op ", panel);
    lines.say(one_of(&[" - ", " zz9 ", " 1234 ", " abc ", " hello "], draws));
    match below(draws, 8) {
        0 => lines.say(one_of(&["mute", "override", "silence", "resound"], draws)),
        1 => lines.say(one_of(
            &["reset", "clear", "clear", "delays on", "delays off"],
            draws,
        )),
        2 | 3 => {
            lines.say(one_of(&["cancel ", "test ", "untest "], draws));
            say_one(lines, zones_of(alloc, site, panel), draws)?;
        }
        4 => {
            lines.say(one_of(&["disable zone ", "enable zone "], draws));
            say_one(lines, zones_of(alloc, site, panel), draws)?;
        }
        5 if has_output(site, panel) => {
            lines.say(one_of(&["disable output ", "enable output "], draws));
            say_one(lines, outputs_of(alloc, site, panel), draws)?;
        }
        _ => {
            lines.say(one_of(&["disable point ", "enable point "], draws));
            say_one(lines, points_of(alloc, site, panel), draws)?;
        }
    }
    lines.say("\n");
    Ok(())
}

// One of these names.
fn say_one(lines: &mut Lines, names: Result<Vec<&str>>, draws: &mut Pcg32) -> Result<()> {
    lines.say(one_of(&names?, draws));
    Ok(())
}

fn drawn_panel(site: &Site, draws: &mut Pcg32) -> u64 {
    below(draws, site.panels as u64).saturating_add(1)
}

// The names of the points of a panel.
fn points_of<'a>(alloc: Global, site: &'a Site, panel: u64) -> Result<Vec<&'a str>> {
    let mut names = Vec::new(alloc);
    for point in site.points.as_slice() {
        if point.panel as u64 == panel {
            names.push(point.name.as_str())?;
        }
    }
    Ok(names)
}

// The names of the zones of a panel.
fn zones_of<'a>(alloc: Global, site: &'a Site, panel: u64) -> Result<Vec<&'a str>> {
    let mut names = Vec::new(alloc);
    for zone in site.zones.as_slice() {
        if zone.panel as u64 == panel {
            names.push(zone.name.as_str())?;
        }
    }
    Ok(names)
}

// The names of the outputs of a panel.
fn outputs_of<'a>(alloc: Global, site: &'a Site, panel: u64) -> Result<Vec<&'a str>> {
    let mut names = Vec::new(alloc);
    for output in site.outputs.as_slice() {
        if output.panel as u64 == panel {
            names.push(output.name.as_str())?;
        }
    }
    Ok(names)
}

fn has_output(site: &Site, panel: u64) -> bool {
    site.outputs
        .as_slice()
        .iter()
        .any(|output| output.panel as u64 == panel)
}

// The names of the outputs that are confirmed from outside.
fn confirming_of<'a>(alloc: Global, site: &'a Site) -> Result<Vec<&'a str>> {
    let mut names = Vec::new(alloc);
    for output in site.outputs.as_slice() {
        if is_confirming(output) {
            names.push(output.name.as_str())?;
        }
    }
    Ok(names)
}

fn has_confirming(site: &Site) -> bool {
    site.outputs.as_slice().iter().any(is_confirming)
}

fn is_confirming(output: &Output) -> bool {
    matches!(output.kind, OutputKind::Routing | OutputKind::Protection)
}
