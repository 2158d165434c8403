//! Trials of the rules themselves: whole records run by the definitions, through the plain slow program that computes
//! them.
//!
//! `run SITE RECORD` prints the text of the record at that site, both files; `steps SITE RECORD` tells for each of its
//! ticks how many markers are evaluated by the facts of the rules. The head of trial_cases says how a list of cases is
//! written.
#![tactic(auto)]

mod moments;
mod steps;

use anyhow::{Result, bail};
use moments::moments_of;
use plain_panel::timeline;
use site_types::Retained;
use std::fs;
use steps::steps_told;
use timeline_text::text_of;
use trial_cases::{Words, answer_cases, site_at};

/// What a case tries.
#[derive(Clone, Copy)]
enum Kind {
    Run,
    Steps,
}

/// Prints a list of cases, and behind each what is answered.
pub fn answer_list(rt: &HostRuntime, list: &str) -> Result<()> {
    answer_cases(
        rt,
        list,
        &[("run", Kind::Run), ("steps", Kind::Steps)],
        |kind, case| match kind {
            Kind::Run => run(rt, Words::of(case.subject)),
            Kind::Steps => count_steps(rt, Words::of(case.subject)),
        },
    )
}

// The definitions run a record at a site.
fn run(rt: &HostRuntime, mut words: Words) -> Result<String> {
    let alloc = rt.alloc();
    let site = site_at(rt, words.next())?;
    let moments = moments_of(alloc, &site, &fs::read_to_string(rt, words.next())?)?;
    match timeline(alloc, &site, &Retained::empty(), &moments) {
        Ok(run) => text_of(alloc, &site, &run),
        Err(_) => bail!("no memory"),
    }
}

// How many markers the definitions have evaluated in each tick of a record.
fn count_steps(rt: &HostRuntime, mut words: Words) -> Result<String> {
    let alloc = rt.alloc();
    let site = site_at(rt, words.next())?;
    let moments = moments_of(alloc, &site, &fs::read_to_string(rt, words.next())?)?;
    steps_told(alloc, &site, &moments)
}
