//! Trials of audits: the verdict on records and texts, as they were written and changed.
//!
//! `Kind` of src/kind has the kinds of cases, and the head of trial_cases how a list of cases is written. The texts
//! beside the list are those that the program wrote for the records beside them. What is answered was worked out by
//! hand from the rules, or is that no rule is broken. An audit that ran out of memory ends the trials, so each verdict
//! here is one with ample memory.
#![tactic(auto)]

mod changing;
mod judging;
mod kind;
mod verdict_words;

use anyhow::Result;
use kind::KINDS;
use trial_cases::answer_cases;

/// Prints a list of cases, and behind each what is answered.
pub fn answer_list(rt: &HostRuntime, list: &str) -> Result<()> {
    answer_cases(
        rt,
        list,
        &KINDS,
        |kind, case| judging::judge_case(rt, kind, case),
    )
}
