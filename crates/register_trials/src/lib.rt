//! Trials of the service register and of imports over keepers in memory, with and without a database.
//!
//! `Kind` of src/kind has the kinds of cases, and the head of trial_cases how a list of cases is written.
#![tactic(auto)]

mod calls;
mod drawn_calls;
mod each_failure;
mod kind;
mod telling;

use anyhow::Result;
use calls::{make_calls, make_file_calls, make_table_calls};
use drawn_calls::try_calls;
use each_failure::fail_each;
use kind::{KINDS, Kind};
use trial_cases::{Case, answer_cases, site_at};

/// Prints a list of cases, and behind each what is answered.
pub fn answer_list(rt: &HostRuntime, list: &str) -> Result<()> {
    answer_cases(rt, list, &KINDS, |kind, case| answer(rt, kind, case))
}

fn answer(rt: &HostRuntime, kind: Kind, case: &Case) -> Result<String> {
    let site = site_at(rt, case.subject)?;
    match kind {
        Kind::Calls => make_calls(rt, &site, case.rest),
        Kind::OverFile => make_file_calls(rt, &site, case.rest),
        Kind::OverMemory => make_table_calls(rt, &site, case.rest),
        Kind::EachFailure => fail_each(rt, &site, case.rest),
        Kind::DrawnCalls => try_calls(rt, &site, case.rest),
    }
}
