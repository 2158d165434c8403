//! Trials of the parts, of whole panels and of the program: lists of cases, printed with what is answered to each.
//!
//! The standard input names the lists. Each is the file `cases` of a folder of `data`, in which the files lie that its
//! cases name, and has a crate of its own, whose head says what it tries; the head of trial_cases says how a list is
//! written. `stdout` has what must be printed, so a case is added or changed without a proof.
#![tactic(auto)]

use anyhow::{Result, bail};
use trial_cases::answer_lists;

fn main(rt: HostRuntime) -> Result<()> {
    answer_lists(&rt, |name, list| match name {
        "base" => base_trials::answer_list(&rt, list),
        "storage" => storage_trials::answer_list(&rt, list),
        "site" => site_trials::answer_list(&rt, list),
        "part" => part_trials::answer_list(&rt, list),
        "output" => output_trials::answer_list(&rt, list),
        "node" => node_trials::answer_list(&rt, list),
        "text" => text_trials::answer_list(&rt, list),
        "audit" => audit_trials::answer_list(&rt, list),
        "desk" => desk_trials::answer_list(&rt, list),
        "register" => register_trials::answer_list(&rt, list),
        "program" => program_trials::answer_list(&rt, list),
        "serve" => serve_trials::answer_list(&rt, list),
        _ => bail!("no such list: {name}"),
    })
}
