//! What panel 1 shows of what was found and of what is told from outside of its points.

ghost use Rattle.std.specs.Prelude.{◌≡◌};
ghost use Rattle.site_types.specs.Valid.{IsValid};

use crate::hold_step::HoldStep;
use answer_lanes::{FindingBlock, Lane};
use anyhow::{Result, bail};
use face_text::Face;
use panel_conditions::{Finding, Hold, Outside};
use site_types::{Operation, Retained, Site};
use std::alloc::Global;
use tick_units::Tick;
use timeline_text::changes_of;
use trial_cases::{History, Lines, say_zones};

/// What is shown otherwise in each tick that is named. Such a tick has a turn, and no other; its operations
/// are done behind the turn. What is told from outside stays so until told otherwise.
pub(crate) fn hold(alloc: Global, site: &Site, line: &str) -> Result<String>
    requires { IsValid site.now }
{
    let history = History::read(alloc, line)?;
    let Ok(mut hold) = Hold::new(alloc, site, 1, &Retained::empty()) else {
        bail!("no memory");
    };
    let mut outside = Outside::default();
    let mut before = Face::empty(1);
    let mut lines = Lines::new(alloc);
    for tick in &history.ticks {
        take_tick(alloc, site, &history, *tick, &mut hold, &mut outside)?;
        let after = face_of(&hold);
        let changes = changes_of(alloc, site, &before, &after)?;
        lines.count("    tick ", *tick);
        say_shown(&mut lines, site, &changes, hold.word().manual);
        before = after;
    }
    lines.done()
}

// What comes in a tick, the turn, and what is done.
fn take_tick(
    alloc: Global,
    site: &Site,
    history: &History,
    tick: u64,
    hold: &mut Hold,
    outside: &mut Outside,
) -> Result<()>
    requires { IsValid site.now }
{
    let Ok(mut findings) = Lane::new(alloc, 32, 64) else {
        bail!("no memory");
    };
    let mut done: Vec<Operation> = Vec::new(alloc);
    for step in &history.steps {
        if step.tick == tick {
            match HoldStep::read(site, outside, step)? {
                HoldStep::Found(finding) => put(&mut findings, finding)?,
                HoldStep::Outside(told) => *outside = told,
                HoldStep::Done(operation) => done.push(operation)?,
            }
        }
    }
    hold.turn(Tick(tick), &mut findings, outside);
    for operation in &done {
        hold.apply(operation, Tick(tick));
    }
    Ok(())
}

fn put(findings: &mut Lane<FindingBlock>, finding: Finding) -> Result<()>
    requires { (findings.old.quota ≡ 32) × (findings.old.capacity ≡ 64) }
    ensures { (findings.new.quota ≡ 32) × (findings.new.capacity ≡ 64) }
{
    if findings.len() >= 32 || findings.put_count() >= 1000 {
        bail!("more than 32 findings");
    }
    findings.put(finding);
    Ok(())
}

// What a panel of which nothing else is known shows.
fn face_of(hold: &Hold) -> Face {
    let word = hold.word();
    let mut face = Face::empty(1);
    face.zones[0] = hold.zones();
    face.firsts[0] = word.first;
    face.faults = hold.faults();
    face.buzzer = hold.buzzer();
    face.counter = hold.counter_entries().min(999_999) as u32;
    face
}

// What is shown otherwise, and the zones in alarm by hand.
fn say_shown(lines: &mut Lines, site: &Site, changes: &str, manual: u32) {
    lines.say(": ");
    lines.say(if changes.is_empty() {
        "no change"
    } else {
        changes
    });
    if manual != 0 {
        lines.say("; by hand ");
        say_zones(lines, site, 1, manual);
    }
    lines.say("\n");
}
