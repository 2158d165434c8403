//! Drawn histories of silences, against a plain program over the whole list.

use crate::drawn_outputs::{STREAM, TURNS, is_one_in};
use anyhow::Result;
use rand_core::Rng;
use rand_pcg::Pcg32;
use sounder_control::Silence;
use std::alloc::{AllocError, Global};
use trial_cases::{Sample, otherwise};

#[derive(Clone, Copy)]
enum Sounders {
    Silenced,
    Resounded,
    Drove([u32; 8]),
}

// Whether the sounders are quiet after these, the oldest first: the last that isn't a turn is a silence, and
// each turn since finds some zone, and none that the last turn before the silence hadn't.
fn is_quiet(done: &[Sounders]) -> bool {
    let Some(last) = last_order(done) else {
        return false;
    };
    let taken = zones_before(done, last);
    for step in done.iter().skip(last) {
        if !stays_quiet(step, &taken) {
            return false;
        }
    }
    true
}

// The place of the last that isn't a turn.
fn last_order(done: &[Sounders]) -> Option<usize> {
    let mut last = None;
    for (place, step) in done.iter().enumerate() {
        if !matches!(step, Sounders::Drove(_)) {
            last = Some(place);
        }
    }
    last
}

// The zones that the last turn before a place found.
fn zones_before(done: &[Sounders], place: usize) -> [u32; 8] {
    let mut found = [0; 8];
    for step in done.iter().take(place) {
        if let Sounders::Drove(zones) = step {
            found = *zones;
        }
    }
    found
}

fn stays_quiet(step: &Sounders, taken: &[u32; 8]) -> bool {
    match step {
        Sounders::Silenced => true,
        Sounders::Resounded => false,
        Sounders::Drove(zones) => are_some_and_no_new(zones, taken),
    }
}

fn are_some_and_no_new(zones: &[u32; 8], taken: &[u32; 8]) -> bool {
    let mut some = 0;
    let mut new = 0;
    for panel in 0..8 {
        some |= zones[panel];
        new |= zones[panel] & !taken[panel];
    }
    some != 0 && new == 0
}

fn drawn_zones(draws: &mut Pcg32) -> [u32; 8] {
    let bits = draws.next_u32();
    let mut zones = [0; 8];
    zones[0] = bits & 0b11;
    zones[7] = (bits & 0b100) << 29;
    zones
}

// How many turns of a drawn history were quiet, if each is as the plain program says.
fn quiet_turns(alloc: Global, seed: u64) -> Result<Option<u32>, AllocError> {
    let mut draws = Pcg32::new(seed, STREAM);
    let mut silence = Silence::new();
    let mut done = Vec::new(alloc);
    let mut quiet: u32 = 0;
    for _turn in 0..TURNS {
        let zones = drawn_zones(&mut draws);
        done.push(Sounders::Drove(zones))?;
        let told = silence.quiet(&zones);
        if told != is_quiet(&done) {
            return Ok(None);
        }
        quiet = quiet.saturating_add(told as u32);
        if is_one_in(&mut draws, 4) {
            silence.silence();
            done.push(Sounders::Silenced)?;
        }
        if is_one_in(&mut draws, 9) {
            silence.resound();
            done.push(Sounders::Resounded)?;
        }
    }
    Ok(Some(quiet))
}

/// Whether the sounders are quiet, turn by turn.
pub(crate) fn try_silences(alloc: Global, line: &str) -> Result<String> {
    let sample = Sample::read(line)?;
    let mut quiet: u32 = 0;
    for seed in sample.seeds() {
        match quiet_turns(alloc, seed)? {
            Some(turns) => quiet = quiet.saturating_add(turns),
            None => return otherwise(alloc, "plain program", seed),
        }
    }
    let words = if quiet > 100 {
        " histories: all alike, and more than 100 turns were quiet"
    } else {
        " histories: all alike, and not more than 100 turns were quiet"
    };
    sample.all_alike(alloc, words)
}
