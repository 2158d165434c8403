//! Trials of the low crates, which need a part's types in hand: ticks, texts and numbers, loops, rings, levels,
//! supplies, sounders and Hold.
//!
//! `Kind` of src/kind has the kinds of cases, and the head of trial_cases how a list of cases and a history are
//! written. The crate promises a law on records besides.
#![tactic(auto)]

mod allowing;
mod each_fault;
mod hold_rows;
mod holding;
mod kind;
mod lane_runs;
mod loops;
mod numbers;
mod orders;
mod plain_loop;
mod records;
mod ring_steps;
mod ring_words;
mod rings;
mod silences;
mod spans;
mod supplies;
mod texts;
mod ticks;

use anyhow::Result;
use kind::{KINDS, Kind};
pub use records::ticks_end_at_the_last;
use trial_cases::{Case, Words, answer_cases, site_at};

/// Prints a list of cases, and behind each what is answered.
pub fn answer_list(rt: &HostRuntime, list: &str) -> Result<()> {
    answer_cases(rt, list, &KINDS, |kind, case| answer(rt, kind, case))
}

// What the part that a case tries answers. Some need a site.
fn answer(rt: &HostRuntime, kind: Kind, case: &Case) -> Result<String> {
    match kind {
        Kind::Allowed => allowing::allow(rt.alloc(), &site_at(rt, case.subject)?, case.rest),
        Kind::Hold => holding::hold(rt.alloc(), &site_at(rt, case.subject)?, case.rest),
        _ => answer_alone(rt, kind, case),
    }
}

fn answer_alone(rt: &HostRuntime, kind: Kind, case: &Case) -> Result<String> {
    let alloc = rt.alloc();
    let words = Words::of(case.subject);
    match kind {
        Kind::Order => orders::say_canonical(alloc, words),
        Kind::Seats => orders::take_seats(alloc, words, case.rest),
        Kind::Switch => ticks::switch(alloc, words),
        Kind::NextTick => ticks::next(alloc, words),
        Kind::Number => texts::number(alloc, case.subject),
        Kind::Name => texts::name(alloc, case.subject),
        Kind::Profile => texts::profile(alloc, words),
        Kind::Digest => texts::digest(alloc, case.subject),
        Kind::Lane => lane_runs::take_runs(alloc, case.rest),
        Kind::Loop => loops::reach(alloc, words, case.rest),
        Kind::EachFault => each_fault::try_each(alloc, words),
        Kind::Ring => rings::turn_ring(alloc, words, case.rest),
        Kind::RingWords => ring_words::tell_words(alloc, words, case.rest),
        Kind::Supplies => supplies::supply(alloc, words, case.rest),
        _ => silences::silence(alloc, case.rest),
    }
}
