//! Trials of the parts that drive a panel's outputs, of markers, of words between panels and of access levels.
//!
//! `Kind` of src/kind has the kinds of cases, and the head of trial_cases how a list of cases and a history are
//! written.
#![tactic(auto)]

mod asking;
mod delay_step;
mod delaying;
mod drawn_confirmations;
mod drawn_delays;
mod drawn_markers;
mod drawn_outputs;
mod drawn_rings;
mod drawn_silences;
mod kind;
mod marker_texts;
mod routing;

ghost use Rattle.site_types.specs.Valid.{IsValid};

use access_levels::level_of;
use anyhow::Result;
use asking::{ask, cycle};
use delaying::delay;
use drawn_confirmations::try_confirmations;
use drawn_delays::try_delays;
use drawn_markers::try_markers;
use drawn_rings::try_rings;
use drawn_silences::try_silences;
use kind::{KINDS, Kind};
use routing::{confirm_all, route};
use site_types::Site;
use std::alloc::Global;
use trial_cases::{Case, Lines, answer_cases, site_at};

/// Prints a list of cases, and behind each what is answered.
pub fn answer_list(rt: &HostRuntime, list: &str) -> Result<()> {
    answer_cases(rt, list, &KINDS, |kind, case| answer(rt, kind, case))
}

// What the part that a case tries answers. Some need no site.
fn answer(rt: &HostRuntime, kind: Kind, case: &Case) -> Result<String> {
    let alloc = rt.alloc();
    match kind {
        Kind::DrawnSilences => try_silences(alloc, case.rest),
        Kind::DrawnMarkers => try_markers(alloc, case.rest),
        Kind::DrawnRing => try_rings(alloc, case.subject, case.rest),
        _ => answer_at(alloc, kind, &site_at(rt, case.subject)?, case.rest),
    }
}

fn answer_at(alloc: Global, kind: Kind, site: &Site, line: &str) -> Result<String>
    requires { IsValid site.now }
{
    match kind {
        Kind::Delay => delay(alloc, site, line),
        Kind::Route => route(alloc, site, line),
        Kind::ConfirmAll => confirm_all(alloc, site, line),
        Kind::Ask => ask(alloc, site, line),
        Kind::Cycle => cycle(alloc, site),
        Kind::Level => level(alloc, site, line),
        Kind::DrawnDelays => try_delays(alloc, site, line),
        _ => try_confirmations(alloc, site, line),
    }
}

// The level that a code opens, `-` being none.
fn level(alloc: Global, site: &Site, code: &str) -> Result<String> {
    let level = match code {
        "-" => level_of(None, site),
        _ => level_of(Some(code), site),
    };
    let mut lines = Lines::new(alloc);
    lines.count("    level ", level as u64);
    lines.say("\n");
    lines.done()
}
