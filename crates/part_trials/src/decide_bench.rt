//! A panel's Decide with its two lanes, driven by answers and operations.

ghost use Rattle.std.specs.Prelude.{◌≡◌, true, IfOk};

use answer_lanes::{AnswerBlock, FindingBlock, Lane, take_items};
use anyhow::{Result, bail};
use arrayvec::ArrayVec;
use coincidence::{Decide, Finding};
use site_types::{Answer, Event, Operation, Retained, Site};
use std::alloc::Global;
use tick_units::Tick;

/// A Decide, and what lies before and behind it. It refuses an answer or an operation that may not come next.
#[derive(Drop)]
pub(crate) struct DecideBench {
    site: Site,
    panel: u8,
    decide: Decide,
    answers: Lane<AnswerBlock>,
    findings: Lane<FindingBlock>,
    /// The last answer given: its tick and its point.
    stamp: Tick,
    point: u16,
    /// The last operation done.
    at: Tick,
}

impl DecideBench {
    ghost use Rattle.part_trials.specs.Bench.{MayDo, MayGoOn, MayPut};
    ghost use Rattle.coincidence.specs.Premises.{IsOwn};
    ghost use Rattle.site_types.specs.Valid.{IsValid};

    /// A panel of a site, with nothing retained.
    pub(crate) fn open(alloc: Global, site: Site, panel: u8) -> Result<DecideBench>
        requires { IsValid site }
        ensures { IfOk result MayGoOn }
    {
        let (Ok(decide), Ok(answers), Ok(findings)) = (
            Decide::new(alloc, &site, panel, &Retained::empty()),
            Lane::new(alloc, 32, 64),
            Lane::new(alloc, 32, 64),
        ) else {
            bail!("no memory");
        };
        Ok(DecideBench {
            site,
            panel,
            decide,
            answers,
            findings,
            stamp: Tick(0),
            point: 0,
            at: Tick(0),
        })
    }

    /// Begins anew, with no answer given and nothing done.
    pub(crate) fn begin_anew(&mut self, alloc: Global) -> Result<()>
        requires { MayGoOn self.old }
        ensures { MayGoOn self.new }
    {
        let (Ok(decide), Ok(answers), Ok(findings)) = (
            Decide::new(alloc, &self.site, self.panel, &Retained::empty()),
            Lane::new(alloc, 32, 64),
            Lane::new(alloc, 32, 64),
        ) else {
            bail!("no memory");
        };
        self.decide = decide;
        self.answers = answers;
        self.findings = findings;
        self.stamp = Tick(0);
        self.point = 0;
        self.at = Tick(0);
        Ok(())
    }

    pub(crate) fn site(&self) -> &Site {
        &self.site
    }

    /// Puts an answer before Decide, later than those before it: of a later tick, or of a point that stands
    /// later in the site's list.
    pub(crate) fn put(&mut self, answer: &Answer) -> Result<()>
        requires { MayGoOn self.old }
        ensures { MayGoOn self.new }
    {
        if !self.may_put(answer) {
            bail!("an answer that may not come next");
        }
        self.answers.put(*answer);
        self.stamp = answer.stamp;
        self.point = answer.point;
        Ok(())
    }

    fn may_put(&self, answer: &Answer) -> bool
        ensures { result ≡ true
            → MayPut self.now.site self.now.panel self.now.answers self.now.stamp.0 self.now.point
            self.now.at.0 answer.now }
    {
        let later = answer.stamp.0 > self.stamp.0
            || answer.stamp.0 == self.stamp.0 && answer.point > self.point;
        let has_room = self.answers.len() < 32 && self.answers.put_count() < 1_000_000;
        later && has_room && answer.stamp.0 >= self.at.0 && self.has_point(answer.point)
    }

    fn has_point(&self, place: u16) -> bool
        ensures { result ≡ true → IsOwn self.now.site self.now.panel place }
    {
        match self.site.points.get(place as usize) {
            Some(point) => point.panel == self.panel,
            None => false,
        }
    }

    /// Decide has its turn; what it finds, one for each answer that was put.
    pub(crate) fn turn(&mut self) -> Result<ArrayVec<Finding, 32>>
        requires { MayGoOn self.old }
        ensures { MayGoOn self.new }
    {
        if self.findings.len() > 0 || self.findings.put_count() >= 1_000_000 {
            bail!("no room for what is found");
        }
        self.decide.turn(&mut self.answers, &mut self.findings);
        let mut runs = ArrayVec::new();
        let mut found = ArrayVec::new();
        take_items(&mut self.findings, &mut runs, &mut found);
        Ok(found)
    }

    /// An operation was done in a tick, later than the last one and not earlier than the last answer, of
    /// which none may lie before Decide.
    pub(crate) fn apply(&mut self, operation: &Operation, at: Tick) -> Result<()>
        requires { MayGoOn self.old }
        ensures { MayGoOn self.new }
    {
        if !self.may_apply(operation, at) {
            bail!("an operation that may not come next");
        }
        self.decide.apply(operation, at);
        self.at = at;
        Ok(())
    }

    fn may_apply(&self, operation: &Operation, at: Tick) -> bool
        ensures { result ≡ true
            → MayDo self.now.site self.now.panel self.now.answers self.now.stamp.0 self.now.at.0
            operation.now at.0 }
    {
        let event = Event::Op {
            panel: self.panel,
            code: None,
            operation: *operation,
        };
        self.site.has_event(&event)
            && self.answers.len() == 0
            && at.0 > self.at.0
            && at.0 >= self.stamp.0
    }
}
