//! What bodies say.

use anyhow::{Context, Result};
use desk_bodies::{BodyRefusal, VisitBody, read_stop, read_visit};
use site_types::{Label, Site};
use std::fs;
use trial_cases::{Lines, say_point, site_at};

pub(crate) fn tell_stop(rt: &HostRuntime, name: &str) -> Result<String> {
    let body = fs::read(rt, name).context(format_args!("reading {name}"))?;
    let mut lines = Lines::new(rt.alloc());
    match read_stop(rt.alloc(), &body) {
        Ok(stop) => say_code(&mut lines, &stop.code),
        Err(refusal) => say_refusal(&mut lines, refusal),
    }
    lines.say("\n");
    lines.done()
}

/// The body of a visit to a site, whose file comes first.
pub(crate) fn tell_visit(rt: &HostRuntime, site: &str, name: &str) -> Result<String> {
    let site = site_at(rt, site)?;
    let body = fs::read(rt, name).context(format_args!("reading {name}"))?;
    let mut lines = Lines::new(rt.alloc());
    match read_visit(rt.alloc(), &site, &body) {
        Ok(visit) => say_visit(&mut lines, &site, &visit),
        Err(refusal) => say_refusal(&mut lines, refusal),
    }
    lines.say("\n");
    lines.done()
}

fn say_code(lines: &mut Lines, code: &Option<Label>) {
    match code {
        Some(code) => {
            lines.say("    code ");
            lines.say(code.as_str());
        }
        None => lines.say("    no code"),
    }
}

fn say_visit(lines: &mut Lines, site: &Site, body: &VisitBody) {
    say_code(lines, &body.code);
    lines.count(", visit ", body.visit.number as u64);
    lines.count(" of day ", body.visit.day as u64);
    lines.say(" by ");
    lines.say(body.visit.engineer.as_str());
    lines.say(":");
    for place in body.points.as_slice() {
        lines.say(" ");
        say_point(lines, site, *place);
    }
}

fn say_refusal(lines: &mut Lines, refusal: BodyRefusal) {
    match refusal {
        BodyRefusal::BadForm => lines.say("    bad form"),
        BodyRefusal::NoMemory => lines.say("    no memory"),
    }
}
