ghost use Rattle.std.specs.Prelude.{◌≡◌, ◌+◌, ◌++◌, ◌<◌, ◌≤◌, [], ◌∷◌, All, IfOk, IfSome, None, length};
ghost use Rattle.std.specs.Prelude.{take, drop};
ghost use Rattle.tick_units.specs.Lane.{HasRoom, after_turn, empty_lane, turn_count, with_put};
ghost use Rattle.answer_lanes.specs.Runs.{HoldsItems, HasShortCount, all_items, items_of};

use crate::run::Run;
use crate::run_queue::RunQueue;
use crate::several::Several;
use crate::whole::{Whole, whole_runs};
use arrayvec::ArrayVec;
use std::alloc::Global;
use std::marker::Model;
use tick_units::NoMemory;

/// A queue from one task to another, whose items stand in runs. It holds as many items as its capacity, and a turn of
/// the taker moves at most its quota. It counts the items that were ever put and taken. Contracts see it as its items,
/// the oldest first, with both counts, quota and capacity.
#[derive(Drop)]
pub struct Lane<S: Several> {
    runs: RunQueue<S>,
    quota: usize,
    capacity: usize,
    put: u64,
    taken: u64,
}

impl<S: Several> Model for Lane<S> {
    ghost use Rattle.tick_units.specs.Lane.{LaneState};
    ghost use Rattle.answer_lanes.specs.Runs.{AreInLane, all_items};
    ghost use Rattle.answer_lanes.specs.Queues.{queued};
    ghost use Rattle.std.specs.Prelude.{length};

    ghost Value = { LaneState S.Item };

    ghost view = { λ l. record {
      items = all_items S.item_at (queued l.runs);
      put = l.put;
      taken = l.taken;
      quota = l.quota;
      capacity = l.capacity;
    } };

    ghost invariant = { λ l. AreInLane S.item_at (queued l.runs) l.put l.taken l.capacity
        (length l.runs.room.items) };
}

impl<S: Several> Lane<S> {
    ghost use Rattle.answer_lanes.specs.Moves.{AreOfTurn};

    /// An empty lane. This takes the memory for all that it may ever hold.
    pub fn new(alloc: Global, quota: usize, capacity: usize) -> Result<Lane<S>, NoMemory>
        ensures { IfOk result (λ l. l ≡ empty_lane quota capacity) }
    {
        let runs = RunQueue::with_room(alloc, capacity)?;
        Ok(Lane {
            runs,
            quota,
            capacity,
            put: 0,
            taken: 0,
        })
    }

    /// Puts an item at the end. At most 2^40 are ever put.
    pub fn put(&mut self, item: S::Item)
        requires { HasRoom self.old 1 }
        ensures { self.new ≡ with_put self.old (item ∷ []) }
    {
        self.put_run(Run::one(item));
    }

    /// Puts the items of a run at the end.
    pub fn put_run(&mut self, run: Run<S>)
        requires room { HasRoom self.old run.count }
        requires run { HasShortCount run }
        ensures { self.new ≡ with_put self.old (items_of S.item_at run) }
    {
        if run.count > 0 {
            self.runs.put(&run);
            self.put += run.count as u64;
        }
    }

    /// Moves the first items, as many as the quota allows, into an empty list.
    pub fn take_turn(&mut self, into: &mut ArrayVec<Run<S>, 32>)
        requires empty { into.old.items ≡ [] }
        requires few { self.old.quota ≤ 32 }
        ensures moved { all_items S.item_at into.new.items
            ≡ take (turn_count self.old) self.old.items }
        ensures held { All HoldsItems into.new.items }
        ensures rest { self.new ≡ after_turn self.old }
        ensures counts { self.old.put ≡ self.old.taken + length self.old.items }
    {
        let count = self.quota.min(self.len());
        self.taken += count as u64;
        move_runs(&mut self.runs, into, count as u8);
    }

    /// The runs that a turn moves, the oldest first, where it parts none of them. Where it moves all items, it parts
    /// none.
    pub fn turn_runs(&self) -> Option<&[Run<S>]>
        requires few { self.now.quota ≤ 32 }
        ensures shown { IfSome result (λ runs. AreOfTurn S.item_at self.now runs.now) }
        ensures parted { result ≡ None → self.now.quota < length self.now.items }
    {
        let runs = self.runs.as_slice();
        if self.len() <= self.quota {
            return Some(runs);
        }
        let whole = whole_runs(runs, self.quota as u8);
        if (whole.items as usize) < self.quota {
            return None;
        }
        Some(&runs[..whole.runs])
    }

    /// Takes out of the lane what a turn moves, in a turn that looked at its runs.
    pub fn pass_turn(&mut self)
        requires few { self.old.quota ≤ 32 }
        ensures { self.new ≡ after_turn self.old }
    {
        if self.len() <= self.quota {
            self.taken = self.put;
            self.runs.clear();
            return;
        }
        self.taken += self.quota as u64;
        pass_items(&mut self.runs, self.quota as u8);
    }

    /// How many items lie in the lane.
    pub fn len(&self) -> usize
        ensures length { result ≡ length self.now.items }
        ensures counts { self.now.put ≡ self.now.taken + result }
    {
        (self.put - self.taken) as usize
    }

    /// How many items were ever put.
    pub fn put_count(&self) -> u64
        ensures { result ≡ self.now.put }
    {
        self.put
    }

    /// How many items were ever taken.
    pub fn taken_count(&self) -> u64
        ensures { result ≡ self.now.taken }
    {
        self.taken
    }
}

ghost use Rattle.std.specs.Prelude.{Some, slice_get};
ghost use Rattle.answer_lanes.specs.Moves.{AreWhole, MayMove, MovesItems, PassesItems};
ghost use Rattle.answer_lanes.specs.Queues.{HasSameRoom, queued};
ghost use Rattle.answer_lanes.specs.Runs.{rest_of};

// Moves the first items of the runs of a lane into an empty list. The last run that is moved may be parted.
fn move_runs<S: Several>(runs: &mut RunQueue<S>, into: &mut ArrayVec<Run<S>, 32>, count: u8)
    requires empty { into.old.items ≡ [] }
    requires few { count ≤ 32 }
    requires may { MayMove S.item_at count (queued runs.old) }
    ensures moves { MovesItems S.item_at count (queued runs.old) into.new.items (queued runs.new) }
    ensures room { HasSameRoom runs.old runs.new }
{
    let whole = move_whole(runs, into, count);
    let mut left = count - whole.items;
    while left > 0 {
        let Some(run) = runs.first() else {
            return;
        };
        let front = run.front(left);
        left -= front.count;
        let _room = into.try_push(front);
        cut_first(runs, &run, front.count);
    }
}

// Takes the first items of the runs of a lane out of it. The last run that is taken may be parted.
fn pass_items<S: Several>(runs: &mut RunQueue<S>, count: u8)
    requires few { count ≤ 32 }
    requires may { MayMove S.item_at count (queued runs.old) }
    ensures passed { PassesItems S.item_at count (queued runs.old) (queued runs.new) }
    ensures room { HasSameRoom runs.old runs.new }
{
    let whole = whole_runs(runs.as_slice(), count);
    runs.take(whole.runs);
    let mut left = count - whole.items;
    while left > 0 {
        let Some(run) = runs.first() else {
            return;
        };
        let taken = run.count.min(left);
        left -= taken;
        cut_first(runs, &run, taken);
    }
}

// Takes so many items out of the first run of a lane, and the run with the last of them.
fn cut_first<S: Several>(runs: &mut RunQueue<S>, run: &Run<S>, taken: u8)
    requires run { HasShortCount run.now }
    requires first { slice_get (queued runs.old) 0 ≡ Some run.now }
    ensures whole { run.now.count ≤ taken → queued runs.new ≡ drop 1 (queued runs.old) }
    ensures parted { taken < run.now.count
        → queued runs.new ≡ rest_of taken run.now ∷ drop 1 (queued runs.old) }
    ensures room { HasSameRoom runs.old runs.new }
{
    if taken < run.count {
        runs.set_first(run.rest(taken));
    } else {
        runs.take(1);
    }
}

// Moves runs from the front of a lane behind those in a list, while their items are few enough.
fn move_whole<S: Several>(
    runs: &mut RunQueue<S>,
    into: &mut ArrayVec<Run<S>, 32>,
    most: u8,
) -> Whole
    requires held { All HoldsItems (queued runs.old) }
    requires room { length into.old.items + most ≤ 32 }
    ensures whole { AreWhole S.item_at most (queued runs.old) result.runs result.items }
    ensures moved { into.new.items ≡ into.old.items ++ take result.runs (queued runs.old) }
    ensures rest { queued runs.new ≡ drop result.runs (queued runs.old) }
    ensures room { HasSameRoom runs.old runs.new }
{
    let front = runs.as_slice();
    let whole = whole_runs(front, most);
    let _room = into.try_extend_from_slice(&front[..whole.runs]);
    runs.take(whole.runs);
    whole
}
