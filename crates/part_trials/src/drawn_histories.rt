//! Drawn histories of a site with eight zones of all types and 32 points, through Decide and through the plain rules.

ghost use Rattle.part_trials.specs.Bench.{MayGoOn};
ghost use Rattle.site_types.specs.Valid.{IsValid};

use crate::decide_bench::DecideBench;
use crate::plain_judging::judge_plainly;
use anyhow::Result;
use coincidence::Finding;
use rand_pcg::Pcg32;
use site_types::{Answer, Heard, Item, Operation, Site};
use std::alloc::{AllocError, Global};
use tick_units::Tick;
use trial_base::{Cases, DoneAt};
use trial_cases::{Sample, below, otherwise};

const OPERATIONS: usize = 20;
/// The answers between two operations.
const STRETCH: usize = 10;

const POINTS: u16 = 32;
/// How often each case is to come.
const OFTEN: u32 = 50;
/// The stream of numbers that is drawn from.
const STREAM: u64 = 54;

/// How many answers confirmed a zone by each case.
#[derive(Clone, Copy, Default)]
struct Tally {
    manual: u32,
    plain: u32,
    c: u32,
    verified: u32,
    two: u32,
    b: u32,
}

impl Tally {
    fn add(&mut self, cases: &Cases) {
        self.manual = self.manual.saturating_add(cases.manual as u32);
        self.plain = self.plain.saturating_add(cases.plain as u32);
        self.c = self.c.saturating_add(cases.c as u32);
        self.verified = self.verified.saturating_add(cases.verified as u32);
        self.two = self.two.saturating_add(cases.two as u32);
        self.b = self.b.saturating_add(cases.b as u32);
    }

    // Whether each case is tried often.
    fn words(&self) -> &'static str {
        let least = self
            .manual
            .min(self.plain)
            .min(self.c)
            .min(self.verified)
            .min(self.two)
            .min(self.b);
        if least >= OFTEN {
            " histories: all alike, and each way to confirm a zone came 50 times or more"
        } else {
            " histories: all alike, but some way to confirm a zone came less than 50 times"
        }
    }
}

/// What was given and found so far.
#[derive(Drop)]
struct History {
    answers: Vec<Answer>,
    findings: Vec<Finding>,
    done: Vec<DoneAt>,
    tick: u64,
    point: u16,
}

impl History {
    fn new(alloc: Global) -> History {
        History {
            answers: Vec::new(alloc),
            findings: Vec::new(alloc),
            done: Vec::new(alloc),
            tick: 1,
            point: 0,
        }
    }

    // Goes on to the tick and point of the next answer: often in the same tick, at times after a long while.
    fn go_on(&mut self, draws: &mut Pcg32) {
        let next = self.point.saturating_add(1 + below(draws, 4) as u16);
        if below(draws, 2) == 0 && next < POINTS {
            self.point = next;
        } else {
            let ahead = if below(draws, 60) == 0 {
                below(draws, 750)
            } else {
                below(draws, 3)
            };
            self.tick = self.tick.saturating_add(1 + ahead);
            self.point = below(draws, POINTS as u64) as u16;
        }
    }
}

fn drawn_heard(draws: &mut Pcg32) -> Heard {
    match below(draws, 8) {
        0 => Heard::Quiet,
        1 => Heard::Silent,
        _ => Heard::Alarm,
    }
}

fn drawn_operation(draws: &mut Pcg32) -> Operation {
    let zone = below(draws, 8) as u16;
    let point = below(draws, POINTS as u64) as u16;
    match below(draws, 12) {
        0 => Operation::Reset,
        1 | 2 => Operation::Cancel(zone),
        3 => Operation::Disable(Item::Zone(zone)),
        4 | 5 => Operation::Enable(Item::Zone(zone)),
        6 => Operation::Test(zone),
        7 | 8 => Operation::Untest(zone),
        9 => Operation::Disable(Item::Point(point)),
        10 => Operation::Enable(Item::Point(point)),
        _ => Operation::Mute,
    }
}

// The answers up to the next operation, taken in turns of a few, and then the operation, done in the tick of
// the last answer or the next one.
fn draw_stretch(bench: &mut DecideBench, history: &mut History, draws: &mut Pcg32) -> Result<()>
    requires { MayGoOn bench.old }
    ensures { MayGoOn bench.new }
{
    for _given in 0..STRETCH {
        history.go_on(draws);
        let answer = Answer {
            stamp: Tick(history.tick),
            point: history.point,
            heard: drawn_heard(draws),
        };
        bench.put(&answer)?;
        history.answers.push(answer)?;
        if below(draws, 3) == 0 {
            take(bench, history)?;
        }
    }
    take(bench, history)?;
    let last = match history.done.last() {
        None => 0,
        Some(done) => done.tick,
    };
    if history.tick == last || below(draws, 2) == 0 {
        history.tick = history.tick.saturating_add(1);
        history.point = 0;
    }
    let done = DoneAt {
        tick: history.tick,
        operation: drawn_operation(draws),
    };
    bench.apply(&done.operation, Tick(done.tick))?;
    history.done.push(done)?;
    Ok(())
}

// Decide has its turn.
fn take(bench: &mut DecideBench, history: &mut History) -> Result<()>
    requires { MayGoOn bench.old }
    ensures { MayGoOn bench.new }
{
    let found = bench.turn()?;
    for finding in found.as_slice() {
        history.findings.push(*finding)?;
    }
    Ok(())
}

// Whether each finding is what the plain rules make of the whole lists; and how many answers confirmed by each case.
fn is_alike(
    alloc: Global,
    bench: &DecideBench,
    history: &History,
    tally: &mut Tally,
) -> Result<bool, AllocError> {
    let (judged, alike) = judge_plainly(
        alloc,
        bench.site(),
        &history.done,
        &history.answers,
        &history.findings,
    )?;
    for plain in &judged {
        tally.add(&plain.cases);
    }
    Ok(alike)
}

// A drawn history, through both.
fn try_history(alloc: Global, bench: &mut DecideBench, seed: u64, tally: &mut Tally) -> Result<bool>
    requires { MayGoOn bench.old }
    ensures { MayGoOn bench.new }
{
    bench.begin_anew(alloc)?;
    let mut draws = Pcg32::new(seed, STREAM);
    let mut history = History::new(alloc);
    for _stretch in 0..OPERATIONS {
        draw_stretch(bench, &mut history, &mut draws)?;
    }
    Ok(is_alike(alloc, bench, &history, tally)?)
}

/// As many drawn histories as a sample has: whether what Decide finds is what the plain rules make of each.
pub(crate) fn try_histories(alloc: Global, site: Site, line: &str) -> Result<String>
    requires { IsValid site }
{
    let sample = Sample::read(line)?;
    let mut bench = DecideBench::open(alloc, site, 1)?;
    try_sample(alloc, &mut bench, &sample)
}

fn try_sample(alloc: Global, bench: &mut DecideBench, sample: &Sample) -> Result<String>
    requires { MayGoOn bench.old }
{
    let mut tally = Tally::default();
    for seed in sample.seeds() {
        if !try_history(alloc, bench, seed, &mut tally)? {
            return otherwise(alloc, "plain rules", seed);
        }
    }
    sample.all_alike(alloc, tally.words())
}
