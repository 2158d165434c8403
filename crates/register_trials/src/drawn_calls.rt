//! Drawn calls of which some fail and are made again, against a keeper that never fails and one over a database.

ghost use Rattle.site_types.specs.Valid.{IsValid};

use crate::calls::answer_of;
use anyhow::{Result, bail};
use rand_pcg::Pcg32;
use register_sqlite::TableKeeper;
use service_keepers::{MemoryKeeper, SoundMemoryKeeper};
use service_register::Register;
use site_types::Site;
use std::alloc::Global;
use trial_cases::{Lines, Sample, below, otherwise};

/// The stream of all draws here.
const STREAM: u64 = 34;

/// The calls of one drawn history.
const CALLS: u64 = 40;

/// Of the keeper's calls so many at the beginning may fail. A call of the register that fails takes one of them at
/// least, so none is made more often.
const MAY_FAIL: u64 = 240;

/// Whether each history is answered alike over a keeper that fails, one that doesn't and one over a database, and
/// leaves the same rows over the first two.
pub(crate) fn try_calls(rt: &HostRuntime, site: &Site, line: &str) -> Result<String>
    requires { IsValid site.now }
{
    let alloc = rt.alloc();
    let sample = Sample::read(line)?;
    let Ok(register) = Register::new(alloc, site) else {
        bail!("no memory");
    };
    let mut faults: u64 = 0;
    for seed in sample.seeds() {
        match faults_of(rt, site, &register, seed)? {
            Some(more) => faults = faults.saturating_add(more),
            None => return otherwise(alloc, "sound keeper", seed),
        }
    }
    let words = if faults > 100 {
        " histories: all alike, and more than 100 calls failed"
    } else {
        " histories: all alike, and not more than 100 calls failed"
    };
    sample.all_alike(alloc, words)
}

// How many calls of the keeper failed in a drawn history, if what is answered and kept is as over the sound one.
fn faults_of(rt: &HostRuntime, site: &Site, register: &Register, seed: u64) -> Result<Option<u64>>
    requires { IsValid site.now }
{
    let alloc = rt.alloc();
    let mut draws = Pcg32::new(seed, STREAM);
    let (Ok(mut sound), Ok(mut keeper)) = (
        SoundMemoryKeeper::new(alloc),
        MemoryKeeper::new(alloc, drawn_fails(alloc, &mut draws)?),
    ) else {
        bail!("no memory");
    };
    let mut tables = TableKeeper::in_memory(alloc);
    for _call in 0..CALLS {
        let step = drawn_step(alloc, &mut draws)?;
        let wanted = answer_of(rt, site, register, &mut sound, &step)?;
        let told = answer_of(rt, site, register, &mut tables, &step)?;
        if told.as_str() != wanted.as_str()
            || !agrees(rt, site, register, &mut keeper, &step, &wanted)?
        {
            return Ok(None);
        }
    }
    if keeper.tables.visits == sound.tables.visits && keeper.tables.tests == sound.tables.tests {
        Ok(Some(keeper.faults))
    } else {
        Ok(None)
    }
}

// Whether a call answers this, made again while its keeper fails.
fn agrees(
    rt: &HostRuntime,
    site: &Site,
    register: &Register,
    keeper: &mut MemoryKeeper,
    step: &str,
    wanted: &str,
) -> Result<bool>
    requires { IsValid site.now }
{
    for _try in 0..MAY_FAIL {
        let before = keeper.faults;
        let told = answer_of(rt, site, register, keeper, step)?;
        if keeper.faults == before {
            return Ok(told.as_str() == wanted);
        }
    }
    Ok(false)
}

// Numbers of calls that fail, about one in eight.
fn drawn_fails(alloc: Global, draws: &mut Pcg32) -> Result<Vec<u64>> {
    let mut fails = Vec::new(alloc);
    for number in 1..MAY_FAIL {
        if below(draws, 8) == 0 {
            fails.push(number)?;
        }
    }
    Ok(fails)
}

// A call with few numbers, days and points, so that many are of one visit.
fn drawn_step(alloc: Global, draws: &mut Pcg32) -> Result<String> {
    let mut step = Lines::new(alloc);
    match below(draws, 9) {
        0 | 1 | 2 => {
            step.count("visit ", below(draws, 6));
            step.count(" ", drawn_day(draws));
            step.say(" ");
            step.say(drawn_engineer(draws));
        }
        3 | 4 | 5 => {
            step.count("tested ", below(draws, 6));
            step.say(" ");
            step.say(drawn_point(draws));
        }
        6 => step.count("untested ", drawn_day(draws)),
        7 => step.count("export ", drawn_day(draws)),
        _ => {
            step.say("rows");
            for _row in 0..below(draws, 4) {
                step.count(" ", below(draws, 6));
                step.count(",", drawn_day(draws));
                step.say(",");
                step.say(drawn_engineer(draws));
                step.say(",");
                step.say(drawn_point(draws));
            }
        }
    }
    step.done()
}

fn drawn_day(draws: &mut Pcg32) -> u64 {
    below(draws, 3).saturating_add(20_000)
}

fn drawn_engineer(draws: &mut Pcg32) -> &'static str {
    match below(draws, 2) {
        0 => "kim",
        _ => "lee",
    }
}

// A point of the site, or seldom another name.
fn drawn_point(draws: &mut Pcg32) -> &'static str {
    match below(draws, 9) {
        0 | 1 => "m1",
        2 | 3 => "d2",
        4 | 5 => "d9",
        6 | 7 => "d17",
        _ => "d18",
    }
}
