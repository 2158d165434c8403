//! Trials of the HTTP desk's parts: requests that come over a connection in memory or over a socket, and bodies.
//!
//! `Kind` of src/kind has the kinds of cases, and the head of trial_cases how a list of cases is written. The files
//! beside the list are what comes over a connection, byte for byte, and bodies.
#![tactic(auto)]

mod bodies;
mod kind;
mod requests;
mod sockets;

use anyhow::Result;
use kind::{KINDS, Kind};
use trial_cases::{Case, answer_cases};

/// Prints a list of cases, and behind each what is answered.
pub fn answer_list(rt: &HostRuntime, list: &str) -> Result<()> {
    answer_cases(rt, list, &KINDS, |kind, case| answer(rt, kind, case))
}

fn answer(rt: &HostRuntime, kind: Kind, case: &Case) -> Result<String> {
    match kind {
        Kind::Request => requests::take(rt, case.subject, case.rest),
        Kind::Socket => sockets::serve(rt, case.subject),
        Kind::Stop => bodies::tell_stop(rt, case.subject),
        Kind::Visit => bodies::tell_visit(rt, case.subject, case.rest),
    }
}
