//! Trials of the panels of a site over records with operations, each compared with the plain program of the rules.
//!
//! `Kind` of src/kind has the kinds of cases, and the head of trial_cases how a list of cases is written.
//! `compared_runs` plays a record at a system with its journal and by the plain program.
//!
//! `operations SITE RECORD: reversed, fails 75 76` plays a record, both files. With the word `reversed` a tick whose
//! order isn't given has the reversed one, else the canonical one; the disk's calls 75 and 76 fail, of which opening a
//! new journal takes the first four. For each tick in which there is something to tell, what panels show and what is
//! answered is printed, and then whether the plain program of the definitions tells the same.
//! `system SITE: tick 1, point d9 alarm, tick 1202` prints what the system alone tells of a history, which may be so
//! long that the plain program would take too much time.
//! `drawn-operations SITE: 10 from seed 1` compares ten drawn records in the same way.
#![tactic(auto)]

mod drawn_operations;
mod kind;
mod operations;
mod system_alone;

use anyhow::Result;
use drawn_operations::try_operations;
use kind::{KINDS, Kind};
use operations::say_operations;
use system_alone::say_system;
use trial_cases::{Case, answer_cases};

/// Prints a list of cases, and behind each what is answered.
pub fn answer_list(rt: &HostRuntime, list: &str) -> Result<()> {
    answer_cases(rt, list, &KINDS, |kind, case| answer(rt, kind, case))
}

// What the system and the plain program tell of a case.
fn answer(rt: &HostRuntime, kind: Kind, case: &Case) -> Result<String> {
    match kind {
        Kind::Operations => say_operations(rt, case),
        Kind::System => say_system(rt, case),
        Kind::DrawnOperations => try_operations(rt, case),
    }
}
