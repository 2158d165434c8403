//! Which addresses of a loop are reached.

use crate::spans::Spans;
use anyhow::{Result, bail};
use isolators::LoopLine;
use site_types::{LoopPlan, PieceState};
use std::alloc::Global;
use tick_units::Items;
use trial_cases::{Lines, Words};

/// What is reached and what is wrong once each piece of cable is at its state. The words are the last address and the
/// addresses that have an isolator behind them.
pub(crate) fn reach(alloc: Global, mut words: Words, steps: &str) -> Result<String> {
    let last = words.byte()?;
    let mut line = line_of(last, isolators_of(alloc, words)?);
    let mut lines = Lines::new(alloc);
    for step in steps.split(", ") {
        set_piece(&mut line, Words::of(step))?;
        lines.say("    ");
        lines.say(step);
        lines.say(": reached");
        say_reached(&mut lines, &line, last);
    }
    lines.done()
}

/// The numbers that words spell.
pub(crate) fn isolators_of(alloc: Global, words: Words) -> Result<Vec<u8>> {
    let mut isolators = Vec::new(alloc);
    for word in words.rest().split(' ') {
        if !word.is_empty() {
            isolators.push(word.parse::<u8>()?)?;
        }
    }
    Ok(isolators)
}

/// A loop of which all pieces are sound.
pub(crate) fn line_of(last: u8, isolators: Vec<u8>) -> LoopLine {
    LoopLine::new(&LoopPlan {
        panel: 1,
        line: 1,
        last,
        isolators: Items::from_vec(isolators),
    })
}

fn set_piece(line: &mut LoopLine, mut words: Words) -> Result<()> {
    let piece = words.byte()?;
    match words.rest() {
        "sound" => line.set_piece(piece, PieceState::Sound),
        "open" => line.set_piece(piece, PieceState::Open),
        "short" => line.set_piece(piece, PieceState::Short),
        other => bail!("no state of a piece: {other}"),
    }
    Ok(())
}

fn say_reached(lines: &mut Lines, line: &LoopLine, last: u8) {
    let mut spans = Spans::new();
    for address in 1..=last {
        if line.reach(address) {
            spans.add(lines, address as u64);
        }
    }
    spans.end(lines);
    let status = line.status();
    if status.broken {
        lines.say("; broken");
    }
    if status.shorted {
        lines.say("; shorted");
    }
    lines.say("\n");
}
