//! What the answers of panel 1 confirm and release, by Decide and by the plain rules.

ghost use Rattle.part_trials.specs.Bench.{MayGoOn};
ghost use Rattle.site_types.specs.Valid.{IsValid};

use crate::decide_bench::DecideBench;
use crate::plain_judging::judge_plainly;
use crate::reported::Reported;
use anyhow::Result;
use arrayvec::ArrayVec;
use coincidence::Finding;
use site_types::{Answer, Site};
use std::alloc::Global;
use tick_units::Tick;
use trial_base::{DoneAt, answers_at};
use trial_cases::{History, Lines, say_point, say_zones};

/// What each answer that counts confirms and releases. In a tick the answers of its points are taken in one
/// turn, then its operations are done.
pub(crate) fn decide(alloc: Global, site: Site, line: &str) -> Result<String>
    requires { IsValid site }
{
    let history = History::read(alloc, line)?;
    let reported = Reported::read(alloc, &site, &history)?;
    let mut bench = DecideBench::open(alloc, site, 1)?;
    drive(alloc, &mut bench, &reported, history.last)
}

// Drives the bench up to a tick.
fn drive(alloc: Global, bench: &mut DecideBench, reported: &Reported, last: u64) -> Result<String>
    requires { MayGoOn bench.old }
{
    let mut answers: Vec<Answer> = Vec::new(alloc);
    let mut findings: Vec<Finding> = Vec::new(alloc);
    let mut lines = Lines::new(alloc);
    for tick in 1..=last {
        let given = answers_at(alloc, bench.site(), &reported.reports, tick)?;
        let found = drive_tick(bench, &given, &reported.done, tick)?;
        answers.extend_from_slice(&given)?;
        findings.extend_from_slice(found.as_slice())?;
        say_findings(&mut lines, bench.site(), found.as_slice());
    }
    if lines.is_empty() {
        lines.say("    nothing counts\n");
    }
    let (_, alike) = judge_plainly(alloc, bench.site(), &reported.done, &answers, &findings)?;
    if !alike {
        lines.say("    otherwise by the plain rules\n");
    }
    lines.done()
}

// A tick: its answers are taken in one turn, then its operations are done.
fn drive_tick(
    bench: &mut DecideBench,
    answers: &[Answer],
    done: &[DoneAt],
    tick: u64,
) -> Result<ArrayVec<Finding, 32>>
    requires { MayGoOn bench.old }
    ensures { MayGoOn bench.new }
{
    for answer in answers {
        bench.put(answer)?;
    }
    let found = bench.turn()?;
    for operation in done {
        if operation.tick == tick {
            bench.apply(&operation.operation, Tick(tick))?;
        }
    }
    Ok(found)
}

// A line for each finding that counts for a zone.
fn say_findings(lines: &mut Lines, site: &Site, findings: &[Finding]) {
    for finding in findings {
        if finding.counted != 0 {
            lines.count("    tick ", finding.stamp.0);
            lines.say(": ");
            say_point(lines, site, finding.point);
            say_finding(lines, site, finding);
            lines.say("\n");
        }
    }
}

fn say_finding(lines: &mut Lines, site: &Site, finding: &Finding) {
    say_mask(lines, site, " counts for ", finding.counted);
    say_mask(lines, site, ", confirms ", finding.confirmed);
    say_mask(lines, site, ", by hand ", finding.manual);
    say_mask(lines, site, ", releases ", finding.released);
}

// The zones of a mask behind words, if it has any.
fn say_mask(lines: &mut Lines, site: &Site, words: &str, zones: u32) {
    if zones != 0 {
        lines.say(words);
        say_zones(lines, site, 1, zones);
    }
}
