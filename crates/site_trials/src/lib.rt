//! Trials of reading: what is made of site files, of records line by line, of look-ups, and of a move to a changed
//! site.
//!
//! A case is `KIND WORDS | REST`, one a line; `Kind` of src/kind says which there are. An empty line and a line that
//! begins with `#` are printed as they are. Behind each case stands its answer, as it was worked out by hand.
#![tactic(auto)]

mod answer;
mod changes;
mod events;
mod kept;
mod kind;
mod largest;
mod records;
mod refusals;
mod shown;
mod told;

use answer::answer;
use anyhow::{Result, bail};
use kind::KINDS;
use trial_cases::{Words, is_heading, look_up};

/// Prints a list of cases, each with its answer.
pub fn answer_list(rt: &HostRuntime, list: &str) -> Result<()> {
    for line in list.lines() {
        if is_heading(line) {
            println!(rt; "{line}")?;
        } else {
            try_line(rt, line)?;
        }
    }
    Ok(())
}

// Prints a case with its answer.
fn try_line(rt: &HostRuntime, line: &str) -> Result<()> {
    let (head, rest) = line.split_once('|').unwrap_or((line, ""));
    let mut words = Words::of(head.trim_end());
    let Some(kind) = look_up(&KINDS, words.next()) else {
        bail!("no such case: {line}");
    };
    let told = answer(rt, kind, words, rest.trim())?;
    print_answer(rt, line, told.trim_end())
}

// An answer of several lines stands below the case.
fn print_answer(rt: &HostRuntime, line: &str, told: &str) -> Result<()> {
    if told.contains('\n') {
        println!(rt; "{line} =>")?;
        print_below(rt, told)
    } else {
        Ok(println!(rt; "{line} => {told}")?)
    }
}

fn print_below(rt: &HostRuntime, told: &str) -> Result<()> {
    for part in told.lines() {
        println!(rt; "    {part}")?;
    }
    Ok(())
}
