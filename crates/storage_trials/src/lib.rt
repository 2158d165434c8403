//! Trials of what is read, written and kept: the outside in memory and over real files, and the journal when it is
//! damaged or cut.
//!
//! `Kind` of src/kind has the kinds of cases, and the head of trial_cases how a list of cases is written. A real file
//! is made in the folder of the cases and taken away again.
#![tactic(auto)]

mod committing;
mod creating;
mod cutting;
mod disk_steps;
mod failing;
mod kind;
mod memory_disks;
mod opening;
mod real_disks;
mod shelves;
mod streams;

use anyhow::Result;
use kind::{KINDS, Kind};
use trial_cases::{Case, Words, answer_cases};

/// Prints a list of cases, and behind each what is answered.
pub fn answer_list(rt: &HostRuntime, list: &str) -> Result<()> {
    answer_cases(rt, list, &KINDS, |kind, case| answer(rt, kind, case))
}

// What is made of the disk, the files or the journal that a case tries.
fn answer(rt: &HostRuntime, kind: Kind, case: &Case) -> Result<String> {
    let alloc = rt.alloc();
    let words = Words::of(case.subject);
    match kind {
        Kind::CutDisk => memory_disks::cut_disk(alloc, words, case.rest),
        Kind::SoundDisk => memory_disks::use_sound_disk(alloc, case.rest),
        Kind::RealDisk => real_disks::use_real_disk(rt, case.subject, case.rest),
        Kind::Streams => streams::make_streams(alloc, words),
        Kind::Shelf => shelves::fetch_from(rt, case.subject, case.rest),
        Kind::Open => opening::open_pieces(alloc, words, case.rest),
        Kind::OpenText => opening::open_text(alloc, case.subject),
        Kind::LastCommit => committing::cut_last(alloc, words),
        Kind::Failing => failing::fail_each(alloc, words),
        Kind::Created => creating::create(alloc, words),
    }
}
