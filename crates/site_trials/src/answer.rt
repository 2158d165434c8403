//! The answers to cases.

ghost use Rattle.site_types.specs.Valid.{IsValid};

use crate::changes::{bytes_of, changed};
use crate::events::{event_in, operation_in};
use crate::kept::{read_state, say_change, tell_state};
use crate::kind::Kind;
use crate::largest::largest_site;
use crate::records::{told_line, told_pieces, told_record};
use crate::refusals::checked;
use crate::shown::shown;
use anyhow::{Result, bail};
use site_types::{Site, carry};
use std::alloc::{AllocError, Global};
use std::fs;
use trial_cases::{Lines, Words, site_at};

/// What is answered to a case.
pub fn answer(rt: &HostRuntime, kind: Kind, mut words: Words, rest: &str) -> Result<String> {
    match kind {
        Kind::Check => check(rt, words, rest),
        Kind::Largest => checked(rt.alloc(), &largest_site(rt.alloc())?),
        Kind::Carry => carried(rt, words),
        Kind::Has => has(rt, words, rest),
        _ => {
            let site = site_at(rt, words.next())?;
            answer_at(rt, kind, &site, words.rest(), rest)
        }
    }
}

// What is answered at a site.
fn answer_at(rt: &HostRuntime, kind: Kind, site: &Site, file: &str, rest: &str) -> Result<String>
    requires { IsValid site.now }
{
    let alloc = rt.alloc();
    match kind {
        Kind::Show => shown(alloc, site),
        Kind::Line => told_line(alloc, site, rest),
        Kind::Pieces => told_pieces(alloc, site, rest),
        Kind::Change => change(alloc, site, rest),
        _ => {
            if file.is_empty() {
                record_on_a_line(alloc, site, rest)
            } else {
                told_record(alloc, site, fs::read_to_string(rt, file)?.as_bytes())
            }
        }
    }
}

// The words name a file and in which formats it is read: its own, 2 in place of 1, or each.
fn check(rt: &HostRuntime, mut words: Words, changes: &str) -> Result<String> {
    let alloc = rt.alloc();
    let base = fs::read_to_string(rt, words.next())?;
    let text = changed(alloc, &base, changes)?;
    match words.rest() {
        "" => checked(alloc, &text),
        "in format 2" => checked(alloc, &in_format_2(alloc, &text)?),
        "in each format" => check_each(alloc, &text),
        other => bail!("no format: {other}"),
    }
}

fn check_each(alloc: Global, text: &str) -> Result<String> {
    let first = checked(alloc, text)?;
    let second = checked(alloc, &in_format_2(alloc, text)?)?;
    if first == second {
        return Ok(first);
    }
    let mut lines = Lines::new(alloc);
    lines.say("in format 1 ");
    lines.say(&first);
    lines.say(", in format 2 ");
    lines.say(&second);
    lines.done()
}

// The site in format 2, or as it is where it isn't one of format 1.
fn in_format_2(alloc: Global, text: &str) -> Result<String, AllocError> {
    text.replacen(alloc, "format = 1", "format = 2", 1)
}

// A record on one line is answered on one line.
fn record_on_a_line(alloc: Global, site: &Site, record: &str) -> Result<String>
    requires { IsValid site.now }
{
    let (record, changes) = record.split_once('|').unwrap_or((record, ""));
    let record = changed(alloc, record.trim(), changes)?;
    let record = bytes_of(alloc, &record)?;
    let told = told_record(alloc, site, &record)?;
    Ok(told.replace(alloc, '\n', "; ")?)
}

fn has(rt: &HostRuntime, mut words: Words, event: &str) -> Result<String> {
    let site = site_at(rt, words.next())?;
    match event_in(Words::of(event))? {
        Some(event) => Ok(String::from_str(rt.alloc(), yes_or_no(site.has_event(&event)))?),
        None => bail!("no such event: {event}"),
    }
}

fn yes_or_no(holds: bool) -> &'static str {
    if holds { "yes" } else { "no" }
}

fn change(alloc: Global, site: &Site, operation: &str) -> Result<String> {
    let (panel, operation) = operation_in(Words::of(operation))?;
    let mut lines = Lines::new(alloc);
    match site.change_of(panel, &operation) {
        Some(change) => say_change(&mut lines, &change),
        None => lines.say("nothing"),
    }
    lines.done()
}

fn carried(rt: &HostRuntime, mut words: Words) -> Result<String> {
    let before = site_at(rt, words.next())?;
    let after = site_at(rt, words.next())?;
    let state = read_state(&fs::read_to_string(rt, words.next())?)?;
    tell_state(rt.alloc(), &carry(&before, &after, &state))
}
