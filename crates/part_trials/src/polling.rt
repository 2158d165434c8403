//! What the points of panel 1 answer, tick by tick.

ghost use Rattle.std.specs.Prelude.{◌≤◌, IfOk, List};
ghost use Rattle.tick_units.specs.Lane.{HasRoom};
ghost use Rattle.site_types.specs.Valid.{IsValid};
ghost use Rattle.loop_poller.specs.Calls.{Call};
ghost use Rattle.loop_poller.specs.Stands.{StandsFor};

use crate::poll_step::PollStep;
use answer_lanes::{AnswerBlock, Lane, take_items};
use anyhow::{Result, bail};
use arrayvec::ArrayVec;
use loop_poller::Poller;
use site_types::{Answer, Heard, PieceState, PointState, Site};
use std::alloc::Global;
use tick_units::Tick;
use trial_cases::{History, Lines, say_point};

/// The answers of each tick in which some point answers. What befalls points and cables in a tick comes
/// before its answers.
pub(crate) fn poll(alloc: Global, site: &Site, line: &str) -> Result<String>
    requires { IsValid site.now }
{
    let history = History::read(alloc, line)?;
    let mut poller = poller_of(alloc, site)?;
    let mut lines = Lines::new(alloc);
    for tick in 1..=history.last {
        for step in &history.steps {
            if step.tick == tick {
                let next = PollStep::read(site, step.words)?;
                take_step(site, &mut poller, next);
            }
        }
        let answers = answers_at(alloc, site, &poller, tick)?;
        if !answers.is_empty() {
            lines.tick(tick, &answers);
        }
    }
    lines.done()
}

/// The poller of panel 1 of a site.
pub(crate) fn poller_of(alloc: Global, site: &Site) -> Result<Poller>
    requires { IsValid site.now }
    ensures { IfOk result (λ poller. (calls : List Call) × StandsFor site.now 1 calls poller) }
{
    match Poller::new(alloc, site, 1) {
        Ok(poller) => Ok(poller),
        Err(_) => bail!("no memory"),
    }
}

fn take_step(site: &Site, poller: &mut Poller, step: PollStep)
    requires { (calls : List Call) × StandsFor site.now 1 calls poller.old }
    ensures { (calls : List Call) × StandsFor site.now 1 calls poller.new }
{
    match step {
        PollStep::Point { point, state } => report(site, poller, point, state),
        PollStep::Cable { line, piece, state } => cable(site, poller, line, piece, state),
    }
}

// A state of a point of the site by its place.
fn report(site: &Site, poller: &mut Poller, point: u16, state: PointState)
    requires { (calls : List Call) × StandsFor site.now 1 calls poller.old }
    ensures { (calls : List Call) × StandsFor site.now 1 calls poller.new }
{
    if (point as usize) < site.points.len() {
        poller.set_point(point, state);
    }
}

// A state of a piece of a loop of the panel.
fn cable(_site: &Site, poller: &mut Poller, line: u8, piece: u8, state: PieceState)
    requires { (calls : List Call) × StandsFor _site.now 1 calls poller.old }
    ensures { (calls : List Call) × StandsFor _site.now 1 calls poller.new }
{
    if line < 1 || line > 4 {
        return;
    }
    poller.set_piece(line, piece, state);
}

/// The points that answer in a tick, with what they answer.
pub(crate) fn answers_at(alloc: Global, site: &Site, poller: &Poller, tick: u64) -> Result<String>
    requires { (calls : List Call) × StandsFor site.now 1 calls poller.now }
{
    let Ok(mut lane) = Lane::new(alloc, 32, 64) else {
        bail!("no memory");
    };
    ask(site, poller, tick, &mut lane);
    let mut runs = ArrayVec::new();
    let mut answers = ArrayVec::new();
    take_items(&mut lane, &mut runs, &mut answers);
    tell_answers(alloc, site, tick, answers.as_slice())
}

// Puts the answers of a tick into a lane.
fn ask(_site: &Site, poller: &Poller, tick: u64, lane: &mut Lane<AnswerBlock>)
    requires stands { (calls : List Call) × StandsFor _site.now 1 calls poller.now }
    requires room { HasRoom lane.old 32 }
    requires few { lane.old.quota ≤ 32 }
    ensures { lane.new.quota ≤ 32 }
{
    poller.turn(Tick(tick), lane);
}

fn tell_answers(alloc: Global, site: &Site, tick: u64, answers: &[Answer]) -> Result<String> {
    let mut lines = Lines::new(alloc);
    for answer in answers {
        lines.item(", ", "");
        say_point(&mut lines, site, answer.point);
        lines.say(match answer.heard {
            Heard::Quiet => "",
            Heard::Alarm => " alarm",
            Heard::Silent => " silent",
        });
        if answer.stamp != Tick(tick) {
            lines.say(" in another tick");
        }
    }
    lines.done()
}
