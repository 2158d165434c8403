//! Trials of serving a site, or a panel of one by itself: the call `panel` over connections, a register and a journal
//! in memory.
//!
//! `Kind` of src/kind has the kinds of cases, and the head of trial_cases how a list of cases is written; `request_of`
//! of src/requests says how a request is, `input_of` of src/inputs what comes to a panel by itself. The files beside
//! the list are sites, a record and what comes over a connection, byte for byte. An answer is told with the lines of
//! its head in one line, and those of its body below; one of a panel by itself in one line, a frame in the words of
//! src/frames.
#![tactic(auto)]

mod called;
mod days;
mod edge;
mod failing;
mod frame_draft;
mod frames;
mod inputs;
mod kind;
mod options;
mod outside;
mod requests;
mod telling;
mod trial;

use anyhow::Result;
use called::serve;
use kind::{KINDS, Kind};
use trial::Trial;
use trial_cases::{Case, answer_cases};

/// Prints a list of cases, and behind each what is answered.
pub fn answer_list(rt: &HostRuntime, list: &str) -> Result<()> {
    answer_cases(rt, list, &KINDS, |kind, case| answer(rt, kind, case))
}

// What comes of the calls of a case.
fn answer(rt: &HostRuntime, kind: Kind, case: &Case) -> Result<String> {
    match kind {
        Kind::Serve => try_serving(rt, case),
        Kind::Failing(edge) => failing::try_failing(rt.alloc(), &Trial::of_case(rt, case)?, edge),
        Kind::Day => days::try_day(rt, case),
    }
}

// What comes of serving the requests of a case.
fn try_serving(rt: &HostRuntime, case: &Case) -> Result<String> {
    let trial = Trial::of_case(rt, case)?;
    let called = serve(rt.alloc(), &trial, trial.outside)?;
    telling::told(rt.alloc(), &trial, &called)
}
