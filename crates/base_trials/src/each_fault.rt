//! Each single fault of a loop, against a plain program.

use crate::loops::{isolators_of, line_of};
use crate::plain_loop::PlainLoop;
use anyhow::Result;
use site_types::PieceState;
use std::alloc::Global;
use trial_cases::{Lines, Words};

/// How many faults there are where each address is reached as the plain program has it, and each address that isn't.
/// The words are the last address and the addresses that have an isolator behind them.
pub(crate) fn try_each(alloc: Global, mut words: Words) -> Result<String> {
    let last = words.byte()?;
    let isolators = isolators_of(alloc, words)?;
    let mut lines = Lines::new(alloc);
    let mut alike = 0u64;
    for piece in 0..=last {
        for (name, state) in [(" open", PieceState::Open), (" short", PieceState::Short)] {
            match first_otherwise(alloc, last, &isolators, piece, state)? {
                None => alike = alike.saturating_add(1),
                Some(address) => say_otherwise(&mut lines, piece, name, address),
            }
        }
    }
    lines.count("    faults with each address as the rule says: ", alike);
    lines.say("\n");
    lines.done()
}

fn first_otherwise(
    alloc: Global,
    last: u8,
    isolators: &[u8],
    piece: u8,
    state: PieceState,
) -> Result<Option<u8>> {
    let mut line = line_of(last, isolators.to_vec(alloc)?);
    line.set_piece(piece, state);
    let plain = PlainLoop::new(alloc, last, isolators, piece, state)?;
    for address in 1..=last {
        if line.reach(address) != plain.reaches(address as usize) {
            return Ok(Some(address));
        }
    }
    Ok(None)
}

fn say_otherwise(lines: &mut Lines, piece: u8, state: &str, address: u8) {
    lines.count("    piece ", piece as u64);
    lines.say(state);
    lines.count(": otherwise at ", address as u64);
    lines.say("\n");
}
