//! Drawn records with operations and a failing disk, compared with what the plain program makes of them.

use anyhow::Result;
use compared_runs::{Pace, drawn_run, first_other};
use rand_pcg::Pcg32;
use trial_cases::{Case, Sample, otherwise, site_at};

/// The stream of numbers that is drawn from.
const STREAM: u64 = 55;

/// Something is reported in each tick.
const PACE: Pace = Pace {
    ticks: 60,
    one_in: 1,
};

/// What drawn records had in them.
#[derive(Clone, Copy)]
struct Tried {
    /// The ticks with an answer.
    answered: u32,
    /// The ticks in which something else was shown than before.
    changed: u32,
    /// The ticks in which Keep's turn failed.
    failed: u32,
}

/// So many drawn records: whether the plain program tells the same of each.
pub(crate) fn try_operations(rt: &HostRuntime, case: &Case) -> Result<String> {
    let alloc = rt.alloc();
    let sample = Sample::read(case.rest)?;
    let mut tried = Tried {
        answered: 0,
        changed: 0,
        failed: 0,
    };
    for seed in sample.seeds() {
        if !is_same(rt, case.subject, seed, &mut tried)? {
            return otherwise(alloc, "plain program", seed);
        }
    }
    let is_enough = tried.answered >= 10 && tried.changed >= 1 && tried.failed >= 1;
    let words = if is_enough {
        " records: as by the plain program; ten ticks or more with answers, some with a change and with a failed store"
    } else {
        " records: as by the plain program; fewer than ten ticks with answers, or none with a change or a failed store"
    };
    sample.all_alike(alloc, words)
}

// Whether the plain program tells the same of the record of a seed.
fn is_same(rt: &HostRuntime, name: &str, seed: u64, tried: &mut Tried) -> Result<bool> {
    let alloc = rt.alloc();
    let mut draws = Pcg32::new(seed, STREAM);
    let site = site_at(rt, name)?;
    let run = drawn_run(alloc, &site, site_at(rt, name)?, &PACE, &mut draws)?;
    let played = &run.played;
    tried.failed = tried.failed.saturating_add(played.failed);
    for told in &played.told {
        tried.answered = tried
            .answered
            .saturating_add(!told.answers.is_empty() as u32);
    }
    for two in played.told.windows(2) {
        tried.changed = tried
            .changed
            .saturating_add((two[0].faces != two[1].faces) as u32);
    }
    Ok(first_other(&played.told, &run.plain).is_none())
}
