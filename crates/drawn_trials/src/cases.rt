//! What a case tries: drawn sites, or a written history.

ghost use Rattle.std.specs.Prelude.{IfOk};
ghost use Rattle.site_types.specs.Valid.{IsValid};

use crate::drawn_site::drawn_site;
use anyhow::{Result, bail};
use compared_runs::{Pace, by_rules, by_system, drawn_run, first_other, history_blocks};
use face_premises::{Tally, note_run};
use rand_pcg::Pcg32;
use site_config::read_site;
use site_types::Site;
use std::alloc::Global;
use trial_cases::{Case, History, Lines, Sample, Words, site_at};

/// The stream of numbers that is drawn from.
const STREAM: u64 = 56;

/// So many drawn sites, each with a record: the first for which the plain program tells otherwise, if any.
pub(crate) fn try_sites(rt: &HostRuntime, case: &Case, tally: &mut Tally) -> Result<String> {
    let alloc = rt.alloc();
    let pace = read_pace(case.subject)?;
    let sample = Sample::read(case.rest)?;
    for seed in sample.seeds() {
        let mut draws = Pcg32::new(seed, STREAM);
        let text = drawn_site(alloc, &mut draws)?;
        let site = site_of(alloc, &text)?;
        let run = drawn_run(alloc, &site, site_of(alloc, &text)?, &pace, &mut draws)?;
        note_run(alloc, &site, &run.played, tally)?;
        if first_other(&run.played.told, &run.plain).is_some() {
            return say_other(alloc, seed, &text, &run.record);
        }
    }
    sample.all_alike(alloc, " sites: as by the plain program")
}

// The pace that words such as `60 ticks, one in 1` spell.
fn read_pace(words: &str) -> Result<Pace> {
    let (ticks, one_in) = words.split_once(" ticks, one in ").unwrap_or(("", ""));
    Ok(Pace {
        ticks: Words::of(ticks).number()?,
        one_in: Words::of(one_in).number()?,
    })
}

fn site_of(alloc: Global, text: &str) -> Result<Site>
    ensures { IfOk result IsValid }
{
    match read_site(alloc, text.as_bytes()) {
        Ok(site) => Ok(site),
        Err(_) => bail!("a refused site: {text}"),
    }
}

// The site and the record of a seed for which the plain program tells otherwise.
fn say_other(alloc: Global, seed: u64, text: &str, record: &str) -> Result<String> {
    let mut lines = Lines::new(alloc);
    lines.count("    otherwise by the plain program: seed ", seed);
    lines.say("\n");
    lines.say(text);
    lines.say(record);
    lines.done()
}

/// A written history at a site: whether the plain program tells the same.
pub(crate) fn try_history(rt: &HostRuntime, case: &Case, tally: &mut Tally) -> Result<String> {
    let alloc = rt.alloc();
    let site = site_at(rt, case.subject)?;
    let blocks = history_blocks(alloc, &site, &History::read(alloc, case.rest)?)?;
    let twin = site_at(rt, case.subject)?;
    let played = by_system(alloc, twin, &blocks, false, Vec::new(alloc))?;
    let plain = by_rules(alloc, &site, &played.moments)?;
    note_run(alloc, &site, &played, tally)?;
    let mut lines = Lines::new(alloc);
    lines.say(match first_other(&played.told, &plain) {
        None => "    as by the plain program\n",
        Some(_) => "    otherwise by the plain program\n",
    });
    lines.done()
}
