//! Drawn histories of delays, against a plain program over the whole lists.

use crate::drawn_outputs::{
    OUTPUTS, STREAM, TURNS, few_outputs, has, is_one_in, most_outputs, run_of,
};
use anyhow::Result;
use output_delays::Delays;
use rand_pcg::Pcg32;
use site_types::{Requests, Site};
use std::alloc::{AllocError, Global};
use tick_units::Tick;
use trial_cases::{Sample, otherwise};

// Whether the latest turn lets an output through.
fn is_through(
    asked: &[u32],
    by_hand: u32,
    overrides: &[u64],
    active: bool,
    output: (u8, u64),
) -> bool {
    let (number, delay) = output;
    let now = asked.len() as u64;
    let (run, first) = run_of(asked, number);
    let mut overridden = false;
    for tick in overrides {
        overridden = overridden || first <= *tick && *tick < now;
    }
    run > 0 && (has(by_hand, number) || !active || now.saturating_sub(first) >= delay || overridden)
}

// Whether a turn lets each output through as it should.
fn is_let_through(
    asked: &[u32],
    by_hand: u32,
    overrides: &[u64],
    active: bool,
    through: u32,
) -> bool {
    for (number, delay, _) in OUTPUTS {
        let output = (number, delay);
        if has(through, number) != is_through(asked, by_hand, overrides, active, output) {
            return false;
        }
    }
    true
}

// Whether the delays of a drawn history are those of the plain program.
fn has_plain_delays(alloc: Global, site: &Site, seed: u64) -> Result<bool, AllocError> {
    let mut draws = Pcg32::new(seed, STREAM);
    let mut active = !is_one_in(&mut draws, 4);
    let mut delays = Delays::new(site, 1, active);
    let mut asked = Vec::new(alloc);
    let mut overrides = Vec::new(alloc);
    for tick in 1..=TURNS {
        if is_one_in(&mut draws, 12) {
            delays.override_now(Tick(tick));
            overrides.push(tick)?;
        }
        let requests = Requests {
            asked: most_outputs(&mut draws),
            manual: few_outputs(&mut draws),
        };
        asked.push(requests.asked)?;
        let through = delays.turn(Tick(tick), &requests);
        if !is_let_through(&asked, requests.manual, &overrides, active, through) {
            return Ok(false);
        }
        if is_one_in(&mut draws, 12) {
            delays.override_now(Tick(tick));
            overrides.push(tick)?;
        }
        if is_one_in(&mut draws, 15) {
            active = !active;
            delays.set_delays(active);
        }
    }
    Ok(true)
}

/// Whether the outputs are let through, tick by tick.
pub(crate) fn try_delays(alloc: Global, site: &Site, line: &str) -> Result<String> {
    let sample = Sample::read(line)?;
    for seed in sample.seeds() {
        if !has_plain_delays(alloc, site, seed)? {
            return otherwise(alloc, "plain program", seed);
        }
    }
    sample.all_alike(alloc, " histories: all alike")
}
