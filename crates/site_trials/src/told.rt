//! Lines of a record, and its refusals, in words.

use anyhow::Result;
use arrayvec::ArrayVec;
use record_lines::{Line, Refusal, Why, print_line};
use site_types::{Event, Site};
use std::alloc::{AllocError, Global};
use trial_cases::Lines;

/// A refusal in the words of the panel.
pub fn say_refusal(lines: &mut Lines, refusal: &Refusal) {
    if refusal.why == Why::TickLimit {
        lines.say("limit ticks");
        return;
    }
    lines.count("refused line ", refusal.line);
    match refusal.why {
        Why::BadWord => lines.say(" 1"),
        Why::BadNumber => lines.say(" 2"),
        Why::NoSuch => lines.say(" 3"),
        Why::BadTick { expected, found } => {
            lines.count(" 4 expected ", expected);
            lines.count(" found ", found);
        }
        Why::BadOrder { place } => lines.count(" 5 ", place as u64),
        Why::LineTooLong => lines.say(" 6"),
        Why::NotAscii => lines.say(" 7"),
        Why::BeforeFirstTick => lines.say(" 8"),
        Why::Truncated => lines.say(" 9"),
        Why::TickLimit => {}
    }
}

/// What a line says, with places in place of names.
pub fn say_line(alloc: Global, lines: &mut Lines, line: &Line) -> Result<(), AllocError> {
    match line {
        Line::Tick(tick) => lines.count("tick ", tick.0),
        Line::Event(event) => lines.say(&tell_event(alloc, event)?),
        Line::Order(order) => {
            lines.say("order");
            for place in 0..order.len() {
                let seat = order.seat(place);
                lines.say(&format!(in alloc; " {:?}", seat.task)?);
                lines.number(seat.panel as u64);
            }
        }
        Line::End => lines.say("end"),
    }
    Ok(())
}

fn tell_event(alloc: Global, event: &Event) -> Result<String, AllocError> {
    match event {
        Event::Point { point, state } => format!(in alloc; "point {point} {state:?}"),
        Event::Cable {
            panel,
            line,
            piece,
            state,
        } => format!(in alloc; "cable {panel} {line} {piece} {state:?}"),
        Event::Supply { panel, kind, bad } => format!(in alloc; "supply {panel} {kind:?} {bad}"),
        Event::Link { link, up } => format!(in alloc; "link {link} {up}"),
        Event::Confirmed { output } => format!(in alloc; "confirmed {output}"),
        Event::Op {
            panel,
            code,
            operation,
        } => match code {
            Some(code) => format!(in alloc; "op {panel} {code} {operation:?}"),
            None => format!(in alloc; "op {panel} none {operation:?}"),
        },
    }
}

/// The text of a line as it is printed.
pub fn printed(alloc: Global, site: &Site, line: &Line) -> Result<String> {
    let mut out = ArrayVec::new();
    print_line(site, line, &mut out);
    text_of(alloc, out.as_slice())
}

fn text_of(alloc: Global, bytes: &[u8]) -> Result<String> {
    Ok(String::from_str(alloc, str::from_utf8(bytes)?)?)
}
