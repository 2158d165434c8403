//! Trials of drills: the site file, the lines of some seeds, and the same lines by the plain program of the rules.
//!
//! `Kind` of src/kind has the kinds of cases, and the head of trial_cases how a list of cases is written. `file drill:`
//! tells how long the site file is, its digest and the counts of the site that it spells. `line 1: 1000` gives the line
//! of seed 1 after 1,000 ticks. `plain 1: 30` draws the record of seed 1, gives it to the plain program of the rules
//! and says whether that counts the same. `taken drill: reversed, canonical` tells what Decide and Hold of panel 1 have
//! taken after each of two ticks at the site of a drill, or of a file, whose turns are in these orders.
#![tactic(auto)]

mod counting;
mod kind;
mod plain_drill;
mod taking;
mod telling;

use anyhow::Result;
use kind::{KINDS, Kind};
use plain_drill::compare;
use taking::say_taken;
use telling::{say_file, say_line};
use trial_cases::{Case, answer_cases};

/// Prints a list of cases, and behind each what is answered.
pub fn answer_list(rt: &HostRuntime, list: &str) -> Result<()> {
    answer_cases(rt, list, &KINDS, |kind, case| answer(rt, kind, case))
}

fn answer(rt: &HostRuntime, kind: Kind, case: &Case) -> Result<String> {
    match kind {
        Kind::File => say_file(rt.alloc()),
        Kind::Line => say_line(rt.alloc(), case),
        Kind::Plain => compare(rt.alloc(), case),
        Kind::Taken => say_taken(rt, case),
    }
}
