//! Orders of seats.

ghost use Rattle.tick_units.specs.Orders.{IsPanelCount};
ghost use Rattle.std.specs.Prelude.{IfOk};

use anyhow::{Result, bail};
use std::alloc::Global;
use tick_units::{BadOrder, Order, Seat, Task};
use trial_cases::{Lines, Words, look_up};

const TASKS: [(&str, Task); 9] = [
    ("poll", Task::Poll),
    ("decide", Task::Decide),
    ("supply", Task::Supply),
    ("desk", Task::Desk),
    ("hold", Task::Hold),
    ("link", Task::Link),
    ("effect", Task::Effect),
    ("drive", Task::Drive),
    ("keep", Task::Keep),
];

/// The canonical order of so many panels.
pub(crate) fn say_canonical(alloc: Global, words: Words) -> Result<String> {
    let order = Order::canonical(panels_of(words.rest())?);
    let mut lines = Lines::new(alloc);
    say_order(&mut lines, &order);
    lines.done()
}

/// How many panels a word spells.
pub(crate) fn panels_of(word: &str) -> Result<u8>
    ensures { IfOk result IsPanelCount }
{
    match word.parse::<u8>() {
        Ok(panels) if panels >= 1 && panels <= 8 => Ok(panels),
        _ => bail!("a site has 1 to 8 panels, not {word}"),
    }
}

// How many seats there are, and then these, a line for those of one panel that follow one another.
fn say_order(lines: &mut Lines, order: &Order) {
    lines.count("    seats ", order.len() as u64);
    let mut panel = None;
    for place in 0..order.len() {
        let seat = order.seat(place);
        if panel != Some(seat.panel) {
            lines.count("\n    panel ", seat.panel as u64);
            lines.say(":");
            panel = Some(seat.panel);
        }
        lines.say(" ");
        lines.say(name_of(seat.task));
    }
    lines.say("\n");
}

fn name_of(task: Task) -> &'static str {
    match task {
        Task::Poll => "poll",
        Task::Decide => "decide",
        Task::Supply => "supply",
        Task::Desk => "desk",
        Task::Hold => "hold",
        Task::Link => "link",
        Task::Effect => "effect",
        Task::Drive => "drive",
        Task::Keep => "keep",
    }
}

/// The order that is made of seats, or what is wrong with them.
pub(crate) fn take_seats(alloc: Global, words: Words, seats: &str) -> Result<String> {
    let panels = panels_of(words.rest())?;
    let list = seats_of(alloc, seats)?;
    let mut lines = Lines::new(alloc);
    match Order::new(&list, panels) {
        Ok(order) => say_order(&mut lines, &order),
        Err(fault) => say_fault(&mut lines, fault),
    }
    lines.done()
}

fn seats_of(alloc: Global, seats: &str) -> Result<Vec<Seat>> {
    let mut list = Vec::new(alloc);
    for words in seats.split(", ") {
        list.push(seat_of(Words::of(words))?)?;
    }
    Ok(list)
}

fn seat_of(mut words: Words) -> Result<Seat> {
    let panel = words.byte()?;
    match look_up(&TASKS, words.rest()) {
        Some(task) => Ok(Seat { panel, task }),
        None => bail!("no task: {}", words.rest()),
    }
}

fn say_fault(lines: &mut Lines, fault: BadOrder) {
    match fault {
        BadOrder::Strange { place } => lines.count("    strange at ", place as u64),
        BadOrder::Repeated { place } => lines.count("    repeated at ", place as u64),
        BadOrder::Missing { seat } => {
            lines.count("    missing ", seat.panel as u64);
            lines.say(" ");
            lines.say(name_of(seat.task));
        }
    }
    lines.say("\n");
}
