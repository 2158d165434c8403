//! Calls of which each call of the keeper fails in turn.

ghost use Rattle.site_types.specs.Valid.{IsValid};

use crate::calls::answer_of;
use anyhow::{Result, bail};
use service_keepers::MemoryKeeper;
use service_register::Register;
use site_types::Site;
use std::alloc::Global;
use trial_cases::Lines;

/// Whether, whichever call of the keeper fails, one call of the register is refused, and made again answers as where
/// none fails, with the same rows in the end.
pub(crate) fn fail_each(rt: &HostRuntime, site: &Site, line: &str) -> Result<String>
    requires { IsValid site.now }
{
    let alloc = rt.alloc();
    let Ok(register) = Register::new(alloc, site) else {
        bail!("no memory");
    };
    let mut sound = keeper_failing(alloc, &[])?;
    let mut wanted = Lines::new(alloc);
    for step in line.split(", ") {
        wanted.say(answer_of(rt, site, &register, &mut sound, step)?.as_str());
    }
    let wanted = wanted.done()?;
    for earlier in 0..sound.calls {
        let number = earlier.saturating_add(1);
        let mut keeper = keeper_failing(alloc, &[number])?;
        let mut told = Lines::new(alloc);
        for step in line.split(", ") {
            told.say(answer_twice(rt, site, &register, &mut keeper, step)?.as_str());
        }
        let is_same = told.done()?.as_str() == wanted.as_str()
            && keeper.tables.visits == sound.tables.visits
            && keeper.tables.tests == sound.tables.tests;
        if keeper.faults != 1 || !is_same {
            bail!("otherwise where call {number} of the keeper fails: {line}");
        }
    }
    let mut lines = Lines::new(alloc);
    lines.count("    ", sound.calls);
    lines.say(" calls of the keeper, each failing in turn: one refusal, and then as without it\n");
    lines.done()
}

fn keeper_failing(alloc: Global, numbers: &[u64]) -> Result<MemoryKeeper> {
    let Ok(fails) = Vec::from_slice(alloc, numbers) else {
        bail!("no memory");
    };
    let Ok(keeper) = MemoryKeeper::new(alloc, fails) else {
        bail!("no memory");
    };
    Ok(keeper)
}

// What a call answers, made once more where its keeper failed.
fn answer_twice(
    rt: &HostRuntime,
    site: &Site,
    register: &Register,
    keeper: &mut MemoryKeeper,
    step: &str,
) -> Result<String>
    requires { IsValid site.now }
{
    let before = keeper.faults;
    let first = answer_of(rt, site, register, keeper, step)?;
    if keeper.faults == before {
        return Ok(first);
    }
    if first.as_str() != "keeper fault" {
        bail!("{step}: {first}");
    }
    answer_of(rt, site, register, keeper, step)
}
