//! Trials of texts: the lines of faces and answers, and texts read back.
//!
//! `Kind` of src/kind has the kinds of cases, and the head of trial_cases how a list of cases is written. What is
//! read back is compared with a plain program that knows only the words of lines ([`plain_reader`]).
#![tactic(auto)]

mod answer_words;
mod damaging;
mod face_words;
mod kind;
mod plain_reader;
mod reading_back;
mod telling;

use anyhow::Result;
use kind::{KINDS, Kind};
use trial_cases::{Case, Words, answer_cases};

/// Prints a list of cases, and behind each what is answered.
pub fn answer_list(rt: &HostRuntime, list: &str) -> Result<()> {
    answer_cases(rt, list, &KINDS, |kind, case| answer(rt, kind, case))
}

// What is made of the text or the faces that a case tries.
fn answer(rt: &HostRuntime, kind: Kind, case: &Case) -> Result<String> {
    let words = Words::of(case.subject);
    match kind {
        Kind::Change => telling::tell_change(rt, words, case.rest),
        Kind::Failing => telling::tell_failing(rt, words, case.rest),
        Kind::Lists => telling::tell_lists(rt, words, case.rest),
        Kind::Conditions => telling::tell_conditions(rt, words, case.rest),
        Kind::Answers => telling::tell_answers(rt, case.rest),
        Kind::Text => reading_back::read_file(rt, words),
        Kind::Read => reading_back::read_bars(rt, words),
        Kind::Damage => damaging::damage(rt, words),
    }
}
