//! Trials of single parts of a panel: polling, coincidence, and what is shown.
//!
//! `Kind` of src/kind has the kinds of cases, and the head of trial_cases how a list of cases and a history are
//! written.
//!
//! A part whose calls have conditions is driven by a bench: it tests what a call asks for and refuses what may not
//! come next, so that a case needs no proof. `DecideBench` of src/decide_bench drives a Decide.
#![tactic(auto)]

mod decide_bench;
mod deciding;
mod drawn_histories;
mod full_loops;
mod hold_step;
mod holding;
mod kind;
mod plain_judging;
mod poll_step;
mod polling;
mod reported;

use anyhow::Result;
use deciding::decide;
use drawn_histories::try_histories;
use full_loops::ask_full_loops;
use holding::hold;
use kind::{KINDS, Kind};
use polling::poll;
use trial_cases::{Case, answer_cases, site_at};

/// Prints a list of cases, and behind each what is answered.
pub fn answer_list(rt: &HostRuntime, list: &str) -> Result<()> {
    answer_cases(rt, list, &KINDS, |kind, case| answer(rt, kind, case))
}

// What the part that a case tries answers.
fn answer(rt: &HostRuntime, kind: Kind, case: &Case) -> Result<String> {
    let alloc = rt.alloc();
    match kind {
        Kind::FullLoops => ask_full_loops(alloc, case.subject),
        Kind::Poll => poll(alloc, &site_at(rt, case.subject)?, case.rest),
        Kind::Decide => decide(alloc, site_at(rt, case.subject)?, case.rest),
        Kind::DrawnDecide => try_histories(alloc, site_at(rt, case.subject)?, case.rest),
        Kind::Hold => hold(alloc, &site_at(rt, case.subject)?, case.rest),
    }
}
