//! Trials of the call `panel` over forms in memory: streams that are cut, and streams, shelves and disks that fail.
//!
//! `Kind` of src/kind has the kinds of cases, and the head of trial_cases how a list of cases is written. A case is a
//! call, or one call for each place at which something may fail. `record_of` of src/records reads the record, the calls
//! of src/options what is said of the outside.
#![tactic(auto)]

mod called;
mod edge;
mod failing_disks;
mod failing_streams;
mod given;
mod groups;
mod images;
mod imports;
mod keeping;
mod kind;
mod moves;
mod options;
mod outside;
mod records;
mod runs;
mod stops;
mod telling;
mod trial;
mod trickle_sink;
mod trickle_source;

use anyhow::Result;
use kind::{KINDS, Kind};
use trial::Trial;
use trial_cases::{Case, answer_cases};

/// Prints a list of cases, and behind each what is answered.
pub fn answer_list(rt: &HostRuntime, list: &str) -> Result<()> {
    answer_cases(rt, list, &KINDS, |kind, case| answer(rt, kind, case))
}

// What comes of the calls of a case.
fn answer(rt: &HostRuntime, kind: Kind, case: &Case) -> Result<String> {
    let alloc = rt.alloc();
    let trial = match kind {
        Kind::Call => Trial::of_words(rt, case)?,
        Kind::Move | Kind::MoveStops | Kind::FailingMove => Trial::of_moves(rt, case)?,
        Kind::Import | Kind::FailingImport => Trial::of_imports(rt, case)?,
        _ => Trial::of_runs(rt, case)?,
    };
    match kind {
        Kind::Call | Kind::Run => runs::try_call(alloc, &trial),
        Kind::Pieces => runs::try_sizes(alloc, &trial, true),
        Kind::ShortWrites => runs::try_sizes(alloc, &trial, false),
        Kind::FailingReads => failing_streams::try_reads(alloc, &trial),
        Kind::FailingWrites => failing_streams::try_writes(alloc, &trial),
        Kind::FailingDisk => failing_disks::try_disk(alloc, &trial),
        Kind::Stops => stops::try_stops(alloc, &trial),
        Kind::Move => moves::try_move(alloc, &trial),
        Kind::MoveStops => moves::try_stops(alloc, &trial),
        Kind::FailingMove => moves::try_failures(alloc, &trial),
        Kind::Import => imports::try_import(alloc, &trial),
        Kind::FailingImport => imports::try_failures(alloc, &trial),
    }
}
