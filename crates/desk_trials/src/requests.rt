//! What is taken of a connection.

use anyhow::{Context, Result, bail};
use desk_requests::{Request, RequestRoom, Route, Routes, Taken, read_request};
use panel_edges::MemorySource;
use std::fs;
use trial_cases::{Lines, Words};

/// What is taken of a connection with the bytes of a file, at a site with so many panels: `2`, or `2 fails 1` where the
/// first read fails.
pub(crate) fn take(rt: &HostRuntime, name: &str, rest: &str) -> Result<String> {
    let alloc = rt.alloc();
    let mut words = Words::of(rest);
    let panels = words.byte()?;
    let mut fails = Vec::new(alloc);
    if words.next() == "fails" {
        fails.push(words.number()?)?;
    }
    let bytes = fs::read(rt, name).context(format_args!("reading {name}"))?;
    let (Ok(mut conn), Ok(mut room), Ok(routes)) = (
        MemorySource::new(alloc, bytes, fails),
        RequestRoom::new(alloc),
        Routes::new(alloc),
    ) else {
        bail!("no memory");
    };
    let taken = read_request(&mut conn, &mut room, &routes, panels);
    let mut lines = Lines::new(alloc);
    say_taken(&mut lines, &taken);
    lines.done()
}

/// What was taken, on a line.
pub(crate) fn say_taken(lines: &mut Lines, taken: &Taken) {
    lines.say("    ");
    match taken {
        Taken::Asked(request) => say_request(lines, request),
        Taken::Refused(status) => lines.count("refused ", status.number() as u64),
        Taken::Ended => lines.say("ended"),
        Taken::ReadFault => lines.say("read fault"),
    }
    lines.say("\n");
}

fn say_request(lines: &mut Lines, request: &Request) {
    match request.route {
        Route::Face(panel) => lines.count("face ", panel as u64),
        Route::Ticks => lines.say("ticks"),
        Route::Table => lines.say("table"),
        Route::Visits => lines.say("visits"),
        Route::Untested(day) => lines.count("untested ", day as u64),
        Route::Stop => lines.say("stop"),
    }
    lines.count(", a head of ", request.head as u64);
    lines.count(" and a body of ", request.body as u64);
}
