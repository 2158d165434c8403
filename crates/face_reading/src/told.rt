//! What the lines of a text have told so far.

ghost use Rattle.std.specs.Prelude.{◌≡◌, ◌≤◌, length, IfOk, OnOk};
ghost use Rattle.face_reading.specs.Entries.{rank_of as place_of_entry, slot_of};
ghost use Rattle.face_reading.specs.Reading.{closed_block, may_close as may_be_closed, no_answers, nothing_told};
ghost use Rattle.face_reading.specs.Reading.{timeline_told};
ghost use Rattle.face_reading.specs.ReadSoFar.{HasPlaceOf, Turns};
ghost use Rattle.face_reading.specs.Telling.{IsPlaced};

use crate::change::Change;
use crate::entry::Entry;
use crate::rank::rank_of;
use crate::telling::{is_told, tell};
use face_text::{Answers, Face, MOST_ANSWERS, OpAnswer, OpAnswers, Step, Timeline};
use site_types::Site;
use std::alloc::Global;
use std::marker::Model;
use std::mem;
use tick_units::{Items, NoMemory, Tick};

/// What is told so far: the opening and the ended steps, and the block of lines that is being told, which is
/// the opening's where its tick is 0.
#[derive(Drop)]
pub struct ToldSoFar {
    opened: Vec<Face>,
    steps: Vec<Step>,
    tick: Tick,
    faces: Vec<Face>,
    answers: Answers,
    // The place of the block's last line, 0 where it has none.
    rank: u128,
}

impl Model for ToldSoFar {
    ghost use Rattle.face_reading.specs.Reading.{Told};

    ghost Value = { Told };

    ghost view = { λ t. record {
      opened = t.opened.items;
      steps = t.steps.items;
      tick = t.tick;
      faces = t.faces.items;
      answers = t.answers;
      rank = t.rank;
    } };
}

impl ToldSoFar {
    /// Nothing is told: all faces of the site are empty.
    pub fn nothing(alloc: Global, site: &Site) -> Result<ToldSoFar, NoMemory>
        ensures { IfOk result (λ told. told ≡ nothing_told site.now) }
    {
        let mut faces = Vec::with_capacity(alloc, site.panels as usize)?;
        for place in 0..site.panels {
            faces.push(Face::empty(place + 1))?;
        }
        Ok(ToldSoFar {
            opened: Vec::new(alloc),
            steps: Vec::new(alloc),
            tick: Tick(0),
            faces,
            answers: nothing_answered(),
            rank: 0,
        })
    }

    /// Takes one more line, if it may stand there, and says whether it does.
    pub fn take(&mut self, alloc: Global, entry: Entry) -> Result<bool, NoMemory>
        requires { HasPlaceOf self.old.faces entry }
        ensures { IfOk result (λ taken. Turns self.old entry taken self.new) }
    {
        let rank = rank_of(&entry);
        match entry {
            Entry::Change { panel, change } => Ok(self.take_change(panel, change, rank)),
            Entry::Answer(answer) => Ok(self.take_answer(answer, rank)),
            Entry::Busy { panel, count } => Ok(self.take_busy(panel, count, rank)),
            Entry::StoreFailed => Ok(self.take_failure(rank)),
            Entry::Tick(tick) => self.begin(alloc, tick),
            Entry::End(_) => Ok(false),
        }
    }

    /// The timeline that is told where the last line names this tick, if that line may stand there.
    pub fn finish(mut self, alloc: Global, last: Tick) -> Result<Option<Timeline>, NoMemory>
        ensures { IfOk result (λ timeline. timeline ≡ timeline_told self last) }
    {
        if !self.may_close() || self.tick.0 > last.0 {
            return Ok(None);
        }
        self.close(alloc)?;
        let ToldSoFar { opened, steps, .. } = self;
        Ok(Some(Timeline {
            opened: Items::from_vec(opened),
            steps: Items::from_vec(steps),
            last,
        }))
    }

    fn take_change(&mut self, panel: u8, change: Change, rank: u128) -> bool
        requires panel { (1 ≤ panel) × (panel ≤ length self.old.faces) }
        requires slot { IsPlaced (slot_of change) }
        requires rank { rank ≡ place_of_entry (Entry.Change panel change) }
        ensures { Turns self.old (Entry.Change panel change) result self.new }
    {
        let face = &mut self.faces[panel as usize - 1];
        if self.rank >= rank || is_told(face, change) {
            return false;
        }
        tell(face, change);
        self.rank = rank;
        true
    }

    fn take_answer(&mut self, answer: OpAnswer, rank: u128) -> bool
        requires { rank ≡ place_of_entry (Entry.Answer answer) }
        ensures { Turns self.old (Entry.Answer answer) result self.new }
    {
        let few = self.answers.ops.as_slice().len() < MOST_ANSWERS;
        if self.tick.0 > 0 && self.rank < rank && few {
            self.answers.ops.push(answer);
            self.rank = rank;
            true
        } else {
            false
        }
    }

    fn take_busy(&mut self, panel: u8, count: u64, rank: u128) -> bool
        requires panel { (1 ≤ panel) × (panel ≤ 8) }
        requires rank { rank ≡ place_of_entry (Entry.Busy panel count) }
        ensures { Turns self.old (Entry.Busy panel count) result self.new }
    {
        if self.tick.0 > 0 && self.rank < rank {
            self.answers.busy[panel as usize - 1] = count;
            self.rank = rank;
            true
        } else {
            false
        }
    }

    fn take_failure(&mut self, rank: u128) -> bool
        requires { rank ≡ place_of_entry Entry.StoreFailed }
        ensures { Turns self.old Entry.StoreFailed result self.new }
    {
        if self.tick.0 > 0 && self.rank < rank {
            self.answers.failed = true;
            self.rank = rank;
            true
        } else {
            false
        }
    }

    // Begins the block of a tick.
    fn begin(&mut self, alloc: Global, tick: Tick) -> Result<bool, NoMemory>
        ensures { IfOk result (λ taken. Turns self.old (Entry.Tick tick) taken self.new) }
    {
        if !self.may_close() || self.tick.0 >= tick.0 {
            return Ok(false);
        }
        self.close(alloc)?;
        self.tick = tick;
        self.rank = 0;
        Ok(true)
    }

    // Whether the block is that of the opening, or has a line.
    fn may_close(&self) -> bool
        ensures { result ≡ may_be_closed self.now }
    {
        self.tick.0 == 0 || self.rank > 0
    }

    // Makes the block the opening or a step.
    fn close(&mut self, alloc: Global) -> Result<(), NoMemory>
        ensures { OnOk result (self.new ≡ closed_block self.old) }
    {
        let faces = Vec::from_slice(alloc, &self.faces)?;
        let answers = mem::replace(&mut self.answers, nothing_answered());
        if self.tick.0 == 0 {
            self.opened = faces;
        } else {
            self.steps.push(Step {
                tick: self.tick,
                faces: Items::from_vec(faces),
                answers,
            })?;
        }
        Ok(())
    }
}

fn nothing_answered() -> Answers
    ensures { result ≡ no_answers }
{
    Answers {
        ops: OpAnswers::new(),
        busy: [0; 8],
        failed: false,
    }
}
