//! Records whose ticks come one a request, against runs of them.

use crate::called::{Called, run, serve};
use crate::outside::SOUND;
use crate::requests::post_of;
use crate::telling::parts_of;
use crate::trial::Trial;
use anyhow::{Context, Result};
use std::alloc::Global;
use std::{fs, mem};
use trial_cases::{Case, Lines};

/// Whether serving tells, tick by tick, what a run of the record tells, and leaves the same journal.
pub(crate) fn try_day(rt: &HostRuntime, case: &Case) -> Result<String> {
    let alloc = rt.alloc();
    let record = fs::read_to_string(rt, case.rest).context(format_args!("reading {}", case.rest))?;
    let trial = Trial {
        name: case.subject,
        panel: "",
        site: fs::read(rt, case.subject).ok(),
        digest: [0; 32],
        journal: Vec::new(alloc),
        requests: posts_of(alloc, record.as_str())?,
        outside: SOUND,
        options: "",
    };
    let served = serve(alloc, &trial, SOUND)?;
    let whole = run(alloc, &trial, record.as_bytes())?;
    let mut lines = Lines::new(alloc);
    lines.count("    ticks ", served.outcome.ticks);
    match first_other(&served, whole.text.as_str()) {
        None => lines.say(", the same text"),
        Some(0) => lines.say(", otherwise before the first"),
        Some(tick) => lines.count(", otherwise in tick ", tick),
    }
    if served.journal.as_slice() == whole.journal.as_slice() {
        lines.say(", the same journal");
    }
    lines.say("\n");
    lines.done()
}

// A request for each tick of a record.
fn posts_of(alloc: Global, record: &str) -> Result<Vec<Vec<u8>>> {
    let mut posts = Vec::new(alloc);
    let mut block = Lines::new(alloc);
    for line in record.lines() {
        if line == "end" || line.starts_with("tick ") {
            let whole = mem::replace(&mut block, Lines::new(alloc));
            if !whole.is_empty() {
                posts.push(post_of(alloc, whole.done()?.as_str())?)?;
            }
        }
        block.say(line);
        block.say("\n");
    }
    Ok(posts)
}

// The first tick in which serving tells otherwise than a run, 0 for the opening and one behind the last for the end.
fn first_other(served: &Called, run: &str) -> Option<u64> {
    let (opening, _) = served
        .text
        .as_str()
        .rsplit_once("served ")
        .unwrap_or(("", ""));
    let Some(mut rest) = run.strip_prefix(opening) else {
        return Some(0);
    };
    let mut tick: u64 = 0;
    for answer in &served.answers {
        tick = tick.saturating_add(1);
        rest = match rest_behind(rest, answer.as_str()) {
            Some(rest) => rest,
            None => return Some(tick),
        };
    }
    let is_end = rest.starts_with("end ") && rest.lines().count() == 1;
    if is_end {
        None
    } else {
        Some(tick.saturating_add(1))
    }
}

// What is left of a text behind what an answer tells of a tick, where that stands at its front.
fn rest_behind<'a>(text: &'a str, answer: &str) -> Option<&'a str> {
    let (head, body) = parts_of(answer)?;
    if !head.starts_with("HTTP/1.1 200 OK\r\n") {
        return None;
    }
    text.strip_prefix(body)
}
