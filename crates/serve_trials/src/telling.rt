//! What is told of a call.

use crate::called::Called;
use crate::trial::Trial;
use anyhow::Result;
use service_keepers::MemoryTables;
use std::alloc::Global;
use trial_cases::Lines;

/// The text of a call, what each connection was answered, and what the register keeps.
pub(crate) fn told(alloc: Global, trial: &Trial, called: &Called) -> Result<String> {
    let mut lines = Lines::new(alloc);
    lines.say("    ");
    say_outcome(&mut lines, called);
    lines.say("\n");
    say_indented(&mut lines, called.text.as_str());
    for (place, answer) in called.answers.iter().enumerate() {
        lines.count("    ", (place as u64).saturating_add(1));
        lines.say(": ");
        if place >= called.given {
            lines.say("not given\n");
        } else if trial.is_node() {
            lines.say(answer.as_str());
            lines.say("\n");
        } else {
            say_answer(&mut lines, answer.as_str());
        }
    }
    say_tables(&mut lines, &called.tables);
    lines.done()
}

/// What a trial brought, told on one line: of each answer the status and the lines of the body.
pub(crate) fn told_short(alloc: Global, trial: &Trial, called: &Called) -> Result<String> {
    let mut lines = Lines::new(alloc);
    say_outcome(&mut lines, called);
    for line in called.text.as_str().lines() {
        lines.item(", ", line);
    }
    for (place, answer) in called.answers.iter().enumerate() {
        if place < called.given {
            lines.count("; ", (place as u64).saturating_add(1));
            lines.say(": ");
            if trial.is_node() {
                lines.say(answer.as_str());
            } else {
                say_answer_short(&mut lines, answer.as_str());
            }
        }
    }
    if !called.tables.visits.is_empty() {
        lines.count("; visits ", called.tables.visits.len() as u64);
        lines.count(", tests ", called.tables.tests.len() as u64);
    }
    lines.done()
}

// Says the status, how many ticks were run, and in how many the journal was not kept.
fn say_outcome(lines: &mut Lines, called: &Called) {
    lines.count("status ", called.outcome.status as u64);
    lines.count(", ticks ", called.outcome.ticks);
    if called.outcome.store_failures > 0 {
        lines.count(", store failures ", called.outcome.store_failures);
    }
}

// Says each line of a text, on lines of their own, and where its last one has no line end.
fn say_indented(lines: &mut Lines, text: &str) {
    for line in text.lines() {
        lines.say("        ");
        lines.say(line);
        lines.say("\n");
    }
    if !text.is_empty() && !text.ends_with('\n') {
        lines.say("        without a line end\n");
    }
}

/// The head and the body of an answer, where its head is whole.
pub(crate) fn parts_of(answer: &str) -> Option<(&str, &str)> {
    answer.split_once("\r\n\r\n")
}

fn say_answer(lines: &mut Lines, answer: &str) {
    match parts_of(answer) {
        Some((head, body)) => {
            say_head(lines, head);
            lines.say("\n");
            say_indented(lines, body);
        }
        None if answer.is_empty() => lines.say("no answer\n"),
        None => lines.say("a front of a head\n"),
    }
}

// Says the lines of a head in one line.
fn say_head(lines: &mut Lines, head: &str) {
    for (place, line) in head.split("\r\n").enumerate() {
        if place > 0 {
            lines.say("; ");
        }
        lines.say(line);
    }
}

fn say_answer_short(lines: &mut Lines, answer: &str) {
    let Some((head, body)) = parts_of(answer) else {
        lines.say("no answer");
        return;
    };
    lines.say(head.split(' ').nth(1).unwrap_or("no status"));
    for line in body.lines() {
        lines.say(", ");
        lines.say(line);
    }
}

fn say_tables(lines: &mut Lines, tables: &MemoryTables) {
    for visit in &tables.visits {
        lines.count("    visit ", visit.number as u64);
        lines.count(" of day ", visit.day as u64);
        lines.say(" by ");
        lines.say(visit.engineer.as_str());
        lines.say("\n");
    }
    for test in &tables.tests {
        lines.count("    visit ", test.visit as u64);
        lines.say(" tested ");
        lines.say(test.point.as_str());
        lines.say("\n");
    }
}
