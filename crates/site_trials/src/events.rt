//! Events and operations by their numbers. Points, zones and outputs go by their place in the site's
//! list, from 0, so that one may be named that isn't there.

use anyhow::{Result, bail};
use site_types::{Event, Item, Operation, PieceState, PointState, SupplyKind};
use trial_cases::Words;

/// The event that words name, if they name one: `point PLACE`, `cable PANEL LOOP PIECE`, `supply PANEL`,
/// `link LINK`, `confirmed PLACE` or an operation.
pub fn event_in(mut words: Words) -> Result<Option<Event>> {
    let all = words;
    let event = match words.next() {
        "point" => Event::Point {
            point: words.place()?,
            state: PointState::Alarm,
        },
        "cable" => cable_in(words)?,
        "supply" => Event::Supply {
            panel: words.byte()?,
            kind: SupplyKind::Mains,
            bad: true,
        },
        "link" => Event::Link {
            link: words.byte()?,
            up: false,
        },
        "confirmed" => Event::Confirmed {
            output: words.place()?,
        },
        "op" => given_in(all)?,
        _ => return Ok(None),
    };
    Ok(Some(event))
}

fn cable_in(mut words: Words) -> Result<Event> {
    let panel = words.byte()?;
    let (line, piece) = piece_in(&mut words)?;
    Ok(Event::Cable {
        panel,
        line,
        piece,
        state: PieceState::Open,
    })
}

fn piece_in(words: &mut Words) -> Result<(u8, u8)> {
    let line = words.byte()?;
    Ok((line, words.byte()?))
}

fn given_in(words: Words) -> Result<Event> {
    let (panel, operation) = operation_in(words)?;
    Ok(Event::Op {
        panel,
        code: None,
        operation,
    })
}

/// The panel and the operation of words such as `op 2 disable point 11`.
pub fn operation_in(mut words: Words) -> Result<(u8, Operation)> {
    if words.next() != "op" {
        bail!("no event");
    }
    let panel = words.byte()?;
    let operation = match words.rest() {
        "mute" => Operation::Mute,
        "silence" => Operation::Silence,
        "reset" => Operation::Reset,
        "clear" => Operation::Clear,
        "delays on" => Operation::Delays(true),
        "delays off" => Operation::Delays(false),
        _ => place_operation_in(words)?,
    };
    Ok((panel, operation))
}

fn place_operation_in(mut words: Words) -> Result<Operation> {
    match words.next() {
        "cancel" => Ok(Operation::Cancel(words.place()?)),
        "test" => Ok(Operation::Test(words.place()?)),
        "untest" => Ok(Operation::Untest(words.place()?)),
        "disable" => Ok(Operation::Disable(item_in(words)?)),
        "enable" => Ok(Operation::Enable(item_in(words)?)),
        other => bail!("no such operation: {other}"),
    }
}

fn item_in(mut words: Words) -> Result<Item> {
    let kind = words.next();
    let place = words.place()?;
    item_of(kind, place)
}

fn item_of(kind: &str, place: u16) -> Result<Item> {
    match kind {
        "point" => Ok(Item::Point(place)),
        "zone" => Ok(Item::Zone(place)),
        "output" => Ok(Item::Output(place)),
        _ => bail!("no such kind: {kind}"),
    }
}
