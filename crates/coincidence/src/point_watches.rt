ghost use Rattle.std.specs.Prelude.{◌≡◌, ◌<◌, IfOk, List, length, map, slice_index_or};
ghost use Rattle.site_types.specs.Bits.{IsPlace};
ghost use Rattle.site_types.specs.Changes.{IsPanelNumber};

use crate::point_watch::PointWatch;
use crate::watches::watch_points;
use answer_lanes::BlockSet;
use site_types::{Heard, Point, Retained};
use std::alloc::Global;
use std::marker::Model;
use tick_units::{NoMemory, Tick};

/// What is kept of the points, by their places in the site. Which of them an answer leaves as they are it knows by
/// bits, so that eight of them are asked at once. Contracts see it as the list of what is kept.
#[derive(Drop)]
pub struct PointWatches {
    watches: Vec<PointWatch>,
    /// Those that a quiet answer leaves as they are.
    resting: BlockSet,
    /// Those that a silent answer leaves as they are.
    missing: BlockSet,
}

impl Model for PointWatches {
    ghost use Rattle.std.specs.Prelude.{List};
    ghost use Rattle.coincidence.specs.declared.point_watch.PointWatch.{PointWatch as Watch};
    ghost use Rattle.coincidence.specs.Parts.{is_at_rest, stays_missing};
    ghost use Rattle.coincidence.specs.Places.{HasPointsWhere};

    ghost Value = { List Watch };

    ghost view = { λ p. p.watches.items };

    ghost invariant = { λ p. HasPointsWhere is_at_rest p.watches.items p.resting
        × HasPointsWhere stays_missing p.watches.items p.missing };
}

impl PointWatches {
    ghost use Rattle.std.specs.Prelude.{ℕ, Some, slice_get};
    ghost use Rattle.site_types.specs.declared.point.Point.{Point as PointPlan};
    ghost use Rattle.coincidence.specs.Changes.{IsSwitchedBefore, NotesPoint, SwitchesPoint};
    ghost use Rattle.coincidence.specs.Parts.{point_from, is_at_rest, leaves_watch, stays_missing};
    ghost use Rattle.coincidence.specs.Places.{TellsEight, TellsEights};

    /// What is kept of some points at the start.
    pub fn new(
        alloc: Global,
        points: &[Point],
        kept: &Retained,
        blocks: &[[u16; 4]],
    ) -> Result<PointWatches, NoMemory>
        requires { (k : ℕ) (point : PointPlan) → slice_get points.now k ≡ Some point
            → IsPanelNumber point.panel × IsPlace point.line point.address }
        ensures { IfOk result (λ watches. watches ≡ map (point_from kept.now) points.now) }
    {
        let watches = watch_points(alloc, points, kept)?;
        let resting = BlockSet::first(alloc, watches.len(), true, blocks)?;
        let missing = BlockSet::first(alloc, watches.len(), false, blocks)?;
        Ok(PointWatches {
            watches,
            resting,
            missing,
        })
    }

    /// What is kept of a point.
    pub fn at(&self, place: usize) -> &PointWatch
        requires { place < length self.now }
        ensures { result.now ≡ slice_index_or self.now place result.now }
    {
        &self.watches[place]
    }

    /// Takes note of an answer of a point, of whether it counts, and of the floor before it.
    pub fn note(&mut self, place: usize, heard: Heard, counted: bool, floor: Tick, stamp: Tick)
        requires { place < length self.old }
        ensures { NotesPoint place heard counted floor stamp self.old self.new }
    {
        if self.at(place).stays_at(heard, counted, floor) {
            return;
        }
        self.change(place, heard, counted, floor, stamp);
    }

    // Takes note of an answer that may change what is kept of its point. It stands apart, so that an alarm that goes on
    // takes no more than the test before this call.
    fn change(&mut self, place: usize, heard: Heard, counted: bool, floor: Tick, stamp: Tick)
        requires { place < length self.old }
        ensures { NotesPoint place heard counted floor stamp self.old self.new }
    {
        let watch = &mut self.watches[place];
        let rested = watch.is_at_rest();
        let stayed = watch.stays_missing();
        watch.note(heard, counted, floor, stamp);
        let rests = watch.is_at_rest();
        let stays = watch.stays_missing();
        mark(&mut self.resting, place, rested, rests);
        mark(&mut self.missing, place, stayed, stays);
    }

    /// A point was disabled or enabled in a tick.
    pub fn set_off(&mut self, place: usize, off: bool, at: Tick)
        requires place { place < length self.old }
        requires since { IsSwitchedBefore place at.0 self.old }
        ensures { SwitchesPoint place off at self.old self.new }
    {
        self.watches[place].set_off(off, at);
    }

    /// Which of the eight points from a place on an answer that is heard so leaves as they are, a bit for each.
    pub fn left_by(&self, heard: Heard, first: usize) -> u8
        ensures { TellsEight (leaves_watch heard) self.now first result }
    {
        match heard {
            Heard::Quiet => self.resting_from(first),
            Heard::Silent => self.missing_from(first),
            Heard::Alarm => 0,
        }
    }

    /// Which of the eight points from a place on are at rest, so that a quiet answer leaves them as they are.
    pub fn resting_from(&self, first: usize) -> u8
        ensures { TellsEight is_at_rest self.now first result }
    {
        self.resting.eight_from(first)
    }

    /// Which of the eight points from a place on stay missing, so that a silent answer leaves them as they are.
    pub fn missing_from(&self, first: usize) -> u8
        ensures { TellsEight stays_missing self.now first result }
    {
        self.missing.eight_from(first)
    }

    /// Which of the eight points from each of four places on are at rest, in one word, those of the first one lowest.
    /// `number` is a guess at that of their block.
    #[inline(always)]
    pub fn resting_in(&self, number: usize, firsts: &[u16; 4]) -> u32
        ensures { TellsEights is_at_rest self.now firsts.now result }
    {
        self.resting.eights_at(number, firsts)
    }

    /// Which of the eight points from each of four places on stay missing, in one word, those of the first one lowest.
    /// `number` is a guess at that of their block.
    #[inline(always)]
    pub fn missing_in(&self, number: usize, firsts: &[u16; 4]) -> u32
        ensures { TellsEights stays_missing self.now firsts.now result }
    {
        self.missing.eights_at(number, firsts)
    }
}

ghost use Rattle.std.specs.Prelude.{◌*◌};
ghost use Rattle.answer_lanes.specs.Places.{SetsPlace, has_place};

// Puts a place into a set or takes it out, which was in it or not.
fn mark(set: &mut BlockSet, place: usize, was: bool, is: bool)
    requires within { place < 8 * length set.old.bytes.items }
    requires was { has_place set.old place ≡ was }
    ensures { SetsPlace place is set.old set.new }
{
    if is != was {
        set.set(place, is);
    }
}
