//! What a case tries: sites against one system, or with a carrier.

use crate::carried::Carried;
use crate::carrying::with_carrier;
use crate::drawn::Drawn;
use crate::drawn_site::site_of;
use crate::played::{Counts, by_nodes};
use anyhow::Result;
use compared_runs::{Pace, by_system, first_other};
use rand_pcg::Pcg32;
use std::alloc::Global;
use trial_cases::{Case, Lines, Sample, Words};

/// The stream of numbers that is drawn from.
const STREAM: u64 = 57;

/// So many drawn sites, each with a record: the first whose panels by themselves tell otherwise than a system, if any.
pub(crate) fn try_sites(alloc: Global, case: &Case) -> Result<String> {
    let (panels, pace) = read_subject(case.subject)?;
    let sample = Sample::read(case.rest)?;
    let mut counts = Counts::default();
    for seed in sample.seeds() {
        let mut draws = Pcg32::new(seed, STREAM);
        let drawn = Drawn::new(alloc, panels, &pace, &mut draws)?;
        let played = by_system(
            alloc,
            site_of(alloc, &drawn.text)?,
            &drawn.blocks,
            false,
            Vec::new(alloc),
        )?;
        let told = by_nodes(alloc, panels, &drawn.text, &drawn.blocks, &mut counts)?;
        if let Some(place) = first_other(&played.told, &told) {
            return drawn.say(
                alloc,
                "otherwise than one system",
                seed,
                (place as u64).saturating_add(1),
            );
        }
    }
    let mut lines = Lines::new(alloc);
    lines.count("    ", sample.count);
    lines.count(" sites: as one system, by frames ", counts.frames);
    lines.count(", with zones of others shown ", counts.shown);
    lines.count(", operations asked for ", counts.asked);
    lines.say("\n");
    lines.done()
}

/// So many drawn sites, each with a record and a carrier: the first in which a zone is shown by no word that came.
pub(crate) fn try_carrier(alloc: Global, case: &Case) -> Result<String> {
    let (panels, pace) = read_subject(case.subject)?;
    let sample = Sample::read(case.rest)?;
    let mut carried = Carried::default();
    for seed in sample.seeds() {
        let mut draws = Pcg32::new(seed, STREAM);
        let drawn = Drawn::new(alloc, panels, &pace, &mut draws)?;
        if let Some(tick) = with_carrier(alloc, panels, &drawn, &mut draws, &mut carried)? {
            return drawn.say(
                alloc,
                "zones that aren't those of the newest word that came",
                seed,
                tick,
            );
        }
    }
    carried.say(alloc)
}

// The panels and the pace that words such as `8 panels, 60 ticks, one in 1` spell.
fn read_subject(words: &str) -> Result<(u8, Pace)> {
    let (panels, rest) = words.split_once(" panels, ").unwrap_or(("", ""));
    let (ticks, one_in) = rest.split_once(" ticks, one in ").unwrap_or(("", ""));
    let pace = Pace {
        ticks: Words::of(ticks).number()?,
        one_in: Words::of(one_in).number()?,
    };
    Ok((Words::of(panels).byte()?, pace))
}
