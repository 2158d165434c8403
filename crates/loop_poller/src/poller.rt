ghost use Rattle.std.specs.Prelude.{◌≡◌, ◌≤◌, ◌+◌, ◌*◌, ◌%◌, [], ◌∷◌, List, ℕ, IfOk, IfSome};
ghost use Rattle.tick_units.specs.Lane.{HasRoom};
ghost use Rattle.site_types.specs.declared.site.Site.{Site as SiteOf};
ghost use Rattle.site_types.specs.Profile.{round_of};
ghost use Rattle.site_types.specs.Valid.{IsValid};
ghost use Rattle.loop_poller.specs.Asked.{status_on};
ghost use Rattle.site_types.specs.Things.{loop_of};
ghost use Rattle.loop_poller.specs.Calls.{Call, Reported, Cabled, told_broken, told_cable, told_shorted};

use crate::blocks::{blocks_of, put_block};
use crate::group::Group;
use crate::point_states::PointStates;
use crate::polled_line::PolledLine;
use answer_lanes::{AnswerBlock, Lane, blocks_of_panel};
use isolators::LineStatus;
use site_types::{PieceState, PointState, Profile, Site, with_bit_8};
use std::alloc::Global;
use tick_units::{NoMemory, Tick};

/// Asks the points of a panel, eight addresses of each loop in a tick.
#[derive(Drop)]
pub struct Poller {
    profile: Profile,
    lines: [PolledLine; 4],
    /// By (address - 1) / 8. There is none where a loop has no group of eight points.
    blocks: Vec<Option<[Group; 4]>>,
    states: PointStates,
    /// The loops whose cable has an open piece, and those with a short one, bit `loop - 1` each.
    broken: u8,
    shorted: u8,
}

impl Poller {
    ghost use Rattle.loop_poller.specs.Puts.{PutsAnswers};
    ghost use Rattle.loop_poller.specs.Stands.{HasPoint, IsSoundBlock, StandsFor, StandsForSome};

    /// A poller of a panel, 1 to the panels of the site. All points are quiet and all cables sound.
    pub fn new(alloc: Global, site: &Site, panel: u8) -> Result<Poller, NoMemory>
        requires { IsValid site.now }
        ensures { IfOk result (λ poller. StandsFor site.now panel [] poller) }
    {
        let lines = [
            PolledLine::new(alloc, site, panel, 1)?,
            PolledLine::new(alloc, site, panel, 2)?,
            PolledLine::new(alloc, site, panel, 3)?,
            PolledLine::new(alloc, site, panel, 4)?,
        ];
        let profile = site.profile();
        let blocks = blocks_of(alloc, &lines, profile.round() as usize)?;
        let known = blocks_of_panel(alloc, site.points.as_slice(), panel)?;
        let states = PointStates::new(alloc, site.points.len(), known.as_slice())?;
        Ok(Poller {
            profile,
            lines,
            blocks,
            states,
            broken: 0,
            shorted: 0,
        })
    }

    /// Takes a report on a point, by its place in the site.
    pub fn set_point(&mut self, point: u16, state: PointState)
        requires { HasPoint self.old point }
        ensures { (site : SiteOf) (panel : ℕ) (calls : List Call)
            → StandsFor site panel calls self.old
            → StandsFor site panel (Reported point state ∷ calls) self.new }
    {
        self.states.set(point, state);
    }

    /// Takes a report on a piece of the cable of a loop, 1 to 4.
    pub fn set_piece(&mut self, line: u8, piece: u8, state: PieceState)
        requires { (1 ≤ line) × (line ≤ 4) }
        ensures { (site : SiteOf) (panel : ℕ) (calls : List Call)
            → StandsFor site panel calls self.old
            → StandsFor site panel (Cabled line piece state ∷ calls) self.new }
    {
        let polled = &mut self.lines[line as usize - 1];
        polled.set_piece(piece, state);
        let status = polled.status();
        self.broken = with_bit_8(self.broken, line - 1, status.broken);
        self.shorted = with_bit_8(self.shorted, line - 1, status.shorted);
    }

    /// What is wrong with the cable of a loop, 1 to 4. Nothing is, where the panel has no such loop.
    pub fn status(&self, line: u8) -> LineStatus
        requires { (1 ≤ line) × (line ≤ 4) }
        ensures { (site : SiteOf) (panel : ℕ) (calls : List Call)
            → StandsFor site panel calls self.now
            → result ≡ status_on (loop_of site panel line) (told_cable calls line) }
    {
        self.lines[line as usize - 1].status()
    }

    /// The loops whose cable has an open piece, bit `loop - 1` each.
    pub fn broken(&self) -> u8
        ensures { (site : SiteOf) (panel : ℕ) (calls : List Call)
            → StandsFor site panel calls self.now → result ≡ told_broken site panel calls }
    {
        self.broken
    }

    /// The loops whose cable has a short piece, bit `loop - 1` each.
    pub fn shorted(&self) -> u8
        ensures { (site : SiteOf) (panel : ℕ) (calls : List Call)
            → StandsFor site panel calls self.now → result ≡ told_shorted site panel calls }
    {
        self.shorted
    }

    /// Puts the answers of a tick: at most 32, in order of loop, then address.
    pub fn turn(&self, now: Tick, answers: &mut Lane<AnswerBlock>)
        requires room { HasRoom answers.old 32 }
        requires stands { StandsForSome self.now }
        ensures asked { PutsAnswers self.now now.0 answers.old answers.new }
        ensures few { answers.new.put ≤ answers.old.put + 32 }
    {
        let number = now.0 % self.profile.round();
        match self.sound_block(number as usize) {
            Some(groups) => put_block(groups, &self.states, now, answers),
            None => self.ask_lines(number as u8 * 8 + 1, now, answers),
        }
    }

    // The groups of the four loops at eight addresses, where each has eight points there and none has a fault.
    fn sound_block(&self, number: usize) -> Option<&[Group; 4]>
        ensures { IfSome result (λ groups. IsSoundBlock self.now number groups.now) }
    {
        match self.blocks.get(number) {
            Some(Some(groups)) if self.broken == 0 && self.shorted == 0 => Some(groups),
            _ => None,
        }
    }

    // Puts the answers of eight addresses of each loop, loop by loop.
    fn ask_lines(&self, first: u8, now: Tick, answers: &mut Lane<AnswerBlock>)
        requires room { HasRoom answers.old 32 }
        requires stands { StandsForSome self.now }
        requires first { first ≡ (now.0 % round_of self.now.profile.format) * 8 + 1 }
        ensures asked { PutsAnswers self.now now.0 answers.old answers.new }
        ensures few { answers.new.put ≤ answers.old.put + 32 }
    {
        for line in &self.lines {
            line.ask(&self.states, first, now, answers);
        }
    }
}
