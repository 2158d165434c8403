ghost use Rattle.std.specs.Prelude.{◌≡◌, ◌+◌, ◌≤◌, ℕ, IfOk, IfSome, length, true};
ghost use Rattle.tick_units.specs.Lane.{HasRoom};
ghost use Rattle.site_types.specs.declared.site.Site.{Site as SiteOf};
ghost use Rattle.site_types.specs.Valid.{IsValid};
ghost use Rattle.isolators.specs.Reach.{Cable, sound_cable, with_piece};
ghost use Rattle.loop_poller.specs.Asked.{heard_of, is_reached_on, status_on};
ghost use Rattle.site_types.specs.Things.{loop_of};
ghost use Rattle.loop_poller.specs.Points.{KnowsPoints};

use crate::cables::cable_of;
use crate::group::Group;
use crate::groups::groups_of;
use crate::point_states::PointStates;
use crate::points::points_of;
use answer_lanes::{AnswerBlock, Lane};
use isolators::{LineStatus, LoopLine};
use site_types::{Answer, Heard, PieceState, PointState, Site};
use std::alloc::{AllocError, Global};
use tick_units::Tick;

/// A loop of a panel: its cable, if the loop is there, and the point at each address.
#[derive(Drop)]
pub struct PolledLine {
    cable: Option<LoopLine>,
    points: Vec<Option<u16>>,
    /// By (address - 1) / 8. There is none where the points don't follow one another in the site.
    groups: Vec<Option<Group>>,
}

impl PolledLine {
    ghost use Rattle.loop_poller.specs.Puts.{PutsGroup};
    ghost use Rattle.loop_poller.specs.Stands.{IsOnLoop, IsSoundGroup, IsSoundLine, LineStands};
    ghost use Rattle.loop_poller.specs.Blocks.{IsWholeGroup};

    pub fn new(alloc: Global, site: &Site, panel: u8, line: u8) -> Result<PolledLine, AllocError>
        requires { IsValid site.now }
        ensures { IfOk result (λ polled. LineStands site.now panel line sound_cable polled) }
    {
        let points = points_of(alloc, site, panel, line)?;
        let groups = groups_of(alloc, &points)?;
        Ok(PolledLine {
            cable: cable_of(site, panel, line),
            points,
            groups,
        })
    }

    pub fn set_piece(&mut self, piece: u8, state: PieceState)
        ensures groups { self.new.groups ≡ self.old.groups }
        ensures stands { (site : SiteOf) (panel line : ℕ) (cable : Cable)
            → LineStands site panel line cable self.old
            → LineStands site panel line (with_piece cable piece state) self.new }
    {
        if let Some(cable) = &mut self.cable {
            cable.set_piece(piece, state);
        }
    }

    pub fn status(&self) -> LineStatus
        ensures { (site : SiteOf) (panel line : ℕ) (cable : Cable)
            → LineStands site panel line cable self.now
            → result ≡ status_on (loop_of site panel line) cable }
    {
        match &self.cable {
            Some(cable) => cable.status(),
            None => LineStatus::default(),
        }
    }

    fn reaches(&self, address: u8) -> bool
        requires { 1 ≤ address }
        ensures { (site : SiteOf) (panel line : ℕ) (cable : Cable)
            → LineStands site panel line cable self.now → IsOnLoop (loop_of site panel line) address
            → result ≡ is_reached_on (loop_of site panel line) cable address }
    {
        match &self.cable {
            Some(cable) => cable.reach(address),
            None => false,
        }
    }

    fn heard(&self, address: u8, state: PointState) -> Heard
        requires { 1 ≤ address }
        ensures { (site : SiteOf) (panel line : ℕ) (cable : Cable)
            → LineStands site panel line cable self.now → IsOnLoop (loop_of site panel line) address
            → result ≡ heard_of state (is_reached_on (loop_of site panel line) cable address) }
    {
        let reached = self.reaches(address);
        match state {
            PointState::Quiet if reached => Heard::Quiet,
            PointState::Alarm if reached => Heard::Alarm,
            _ => Heard::Silent,
        }
    }

    fn is_sound(&self) -> bool
        ensures { result ≡ true → IsSoundLine self.now }
    {
        let status = self.status();
        !status.broken && !status.shorted
    }

    // The group that begins at an address, where all its points are reached.
    fn sound_group(&self, first: u8) -> Option<Group>
        requires { 1 ≤ first }
        ensures { IfSome result (λ group. IsSoundGroup self.now first group) }
    {
        match self.groups.get((first as usize - 1) / 8) {
            Some(Some(group)) if self.is_sound() => Some(*group),
            _ => None,
        }
    }

    /// The group of a number, where it has eight points.
    pub fn whole_group(&self, number: usize) -> Option<Group>
        ensures { IfSome result (λ group. IsWholeGroup self.now number group) }
    {
        match self.groups.get(number) {
            Some(Some(group)) if group.count == 8 => Some(*group),
            _ => None,
        }
    }

    /// Puts the answers of eight addresses, from the first one on.
    pub fn ask(&self, states: &PointStates, first: u8, now: Tick, answers: &mut Lane<AnswerBlock>)
        requires room { HasRoom answers.old 8 }
        requires from { (1 ≤ first) × (first ≤ 185) }
        requires within { first + 7 ≤ length self.now.points.items }
        requires known { KnowsPoints self.now.points.items (length states.now) }
        ensures room { (n : ℕ) → HasRoom answers.old (n + 8) → HasRoom answers.new n }
        ensures put { PutsGroup self.now states.now first now.0 answers.old answers.new }
    {
        if self.cable.is_none() {
            return;
        }
        if let Some(group) = self.sound_group(first) {
            group.put_answers(states, now, answers);
            return;
        }
        for address in first..first + 8 {
            if let Some(point) = self.points[address as usize - 1] {
                let heard = self.heard(address, states.at(point));
                answers.put(Answer {
                    stamp: now,
                    point,
                    heard,
                });
            }
        }
    }
}
