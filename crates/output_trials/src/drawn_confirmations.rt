//! Drawn histories of confirmations, against a plain program over the whole lists.

use crate::drawn_outputs::{OUTPUTS, STREAM, TURNS, has, is_one_in, most_outputs, run_of};
use anyhow::Result;
use rand_core::Rng;
use rand_pcg::Pcg32;
use routing_outputs::{Routing, RoutingState};
use site_types::Site;
use std::alloc::{AllocError, Global};
use tick_units::Tick;
use trial_cases::{Sample, otherwise};

// What an output is at after the latest turn, with the ticks and numbers of confirmations that came before
// the turn of their tick.
fn state_of(on: &[u32], confirmations: &[(u64, u8)], limit: u64, number: u8) -> RoutingState {
    let now = on.len() as u64;
    let (run, first) = run_of(on, number);
    let mut confirmed = false;
    for (tick, of) in confirmations {
        confirmed = confirmed || *of == number && *tick > first;
    }
    if run == 0 {
        RoutingState::Idle
    } else if confirmed {
        RoutingState::Confirmed
    } else if now.saturating_sub(first) >= limit {
        RoutingState::Unconfirmed
    } else {
        RoutingState::Waiting
    }
}

// Whether each output is at what it should be, also by the masks.
fn is_at(routing: &Routing, on: &[u32], confirmations: &[(u64, u8)], limit: u64) -> bool {
    for (number, _, confirms) in OUTPUTS {
        let wanted = if confirms {
            state_of(on, confirmations, limit, number)
        } else {
            RoutingState::Idle
        };
        if routing.state(number) != wanted
            || has(routing.confirmed(), number) != (wanted == RoutingState::Confirmed)
            || has(routing.unconfirmed(), number) != (wanted == RoutingState::Unconfirmed)
        {
            return false;
        }
    }
    true
}

// Whether the outputs of a drawn history are at what the plain program says.
fn has_plain_states(alloc: Global, site: &Site, seed: u64) -> Result<bool, AllocError> {
    let mut draws = Pcg32::new(seed, STREAM);
    let limit = draws.next_u32() as u64 % 6;
    let mut routing = Routing::new(site, 1, limit);
    let mut on = Vec::new(alloc);
    let mut confirmations = Vec::new(alloc);
    for tick in 1..=TURNS {
        for (number, _, _) in OUTPUTS {
            if is_one_in(&mut draws, 6) {
                routing.confirm(number);
                confirmations.push((tick, number))?;
            }
        }
        let mask = most_outputs(&mut draws);
        on.push(mask)?;
        routing.turn(Tick(tick), mask);
        if !is_at(&routing, &on, &confirmations, limit) {
            return Ok(false);
        }
    }
    Ok(true)
}

/// What the outputs are at, tick by tick.
pub(crate) fn try_confirmations(alloc: Global, site: &Site, line: &str) -> Result<String> {
    let sample = Sample::read(line)?;
    for seed in sample.seeds() {
        if !has_plain_states(alloc, site, seed)? {
            return otherwise(alloc, "plain program", seed);
        }
    }
    sample.all_alike(alloc, " histories: all alike")
}
