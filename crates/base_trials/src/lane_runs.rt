//! A lane whose runs are parted.

ghost use Rattle.std.specs.Prelude.{◌≡◌};

use crate::spans::Spans;
use answer_lanes::{AnswerBlock, Lane, Run, take_items};
use anyhow::{Result, bail};
use arrayvec::ArrayVec;
use site_types::{Answer, Heard};
use std::alloc::Global;
use tick_units::Tick;
use trial_cases::{Lines, Words};

/// What each turn takes: `run 24 15` puts the quiet answers of 15 points from the 24th on, at most 32, `one 63` that of
/// a point.
pub(crate) fn take_runs(alloc: Global, steps: &str) -> Result<String> {
    let Ok(mut lane) = Lane::new(alloc, 32, 64) else {
        bail!("no memory");
    };
    let mut lines = Lines::new(alloc);
    for step in steps.split(", ") {
        take_step(&mut lane, Words::of(step), &mut lines)?;
    }
    lines.count("    left ", lane.len() as u64);
    lines.count(", put ", lane.put_count());
    lines.count(", taken ", lane.taken_count());
    lines.say("\n");
    lines.done()
}

fn take_step(lane: &mut Lane<AnswerBlock>, mut words: Words, lines: &mut Lines) -> Result<()>
    requires { (lane.old.quota ≡ 32) × (lane.old.capacity ≡ 64) }
    ensures { (lane.new.quota ≡ 32) × (lane.new.capacity ≡ 64) }
{
    match words.next() {
        "run" => {
            let first = words.place()?;
            let count = words.byte()?;
            put_run(lane, first, count)
        }
        "one" => {
            let point = words.place()?;
            put_one(lane, point)
        }
        "turn" => {
            take_turn(lane, lines);
            Ok(())
        }
        other => bail!("no step of a lane: {other}"),
    }
}

fn put_run(lane: &mut Lane<AnswerBlock>, point: u16, count: u8) -> Result<()>
    requires { (lane.old.quota ≡ 32) × (lane.old.capacity ≡ 64) }
    ensures { (lane.new.quota ≡ 32) × (lane.new.capacity ≡ 64) }
{
    if count > 32 {
        bail!("a run of more than 32 points");
    }
    if lane.len() > 64 - count as usize || lane.put_count() > 1000 {
        bail!("a full lane");
    }
    let first = AnswerBlock {
        stamp: Tick(1),
        firsts: [
            point,
            point.saturating_add(8),
            point.saturating_add(16),
            point.saturating_add(24),
        ],
        alarms: [0; 4],
        silents: [0; 4],
    };
    lane.put_run(Run {
        first,
        taken: 0,
        count,
    });
    Ok(())
}

fn put_one(lane: &mut Lane<AnswerBlock>, point: u16) -> Result<()>
    requires { (lane.old.quota ≡ 32) × (lane.old.capacity ≡ 64) }
    ensures { (lane.new.quota ≡ 32) × (lane.new.capacity ≡ 64) }
{
    if lane.len() >= 64 || lane.put_count() > 1000 {
        bail!("a full lane");
    }
    lane.put(Answer {
        stamp: Tick(1),
        point,
        heard: Heard::Quiet,
    });
    Ok(())
}

fn take_turn(lane: &mut Lane<AnswerBlock>, lines: &mut Lines)
    requires { (lane.old.quota ≡ 32) × (lane.old.capacity ≡ 64) }
    ensures { (lane.new.quota ≡ 32) × (lane.new.capacity ≡ 64) }
{
    let mut runs = ArrayVec::new();
    let mut taken: ArrayVec<Answer, 32> = ArrayVec::new();
    take_items(lane, &mut runs, &mut taken);
    lines.count("    turn: ", taken.len() as u64);
    lines.say(" taken, points");
    let mut spans = Spans::new();
    for answer in taken.iter() {
        spans.add(lines, answer.point as u64);
    }
    spans.end(lines);
    lines.say("\n");
}
