ghost use Rattle.std.specs.Prelude.{◌≤◌, length};

use crate::run::Run;
use std::alloc::{AllocError, Global};

/// Runs in the order in which they were put, behind one another in a room that is taken once. The room of those that
/// were taken is used again when there is no other.
#[derive(Drop)]
pub(crate) struct RunQueue<S: Copy> {
    room: Vec<Run<S>>,
    /// Where in the room the first run lies.
    begin: usize,
    /// The place behind the last one.
    end: usize,
    ghost in_order: { begin ≤ end },
    ghost within: { end ≤ length room.items },
}

impl<S: Copy + Default> RunQueue<S> {
    ghost use Rattle.std.specs.Prelude.{◌≡◌, [], IfOk};
    ghost use Rattle.answer_lanes.specs.Queues.{queued};

    /// A queue without runs, with room for so many.
    pub(crate) fn with_room(alloc: Global, count: usize) -> Result<RunQueue<S>, AllocError>
        ensures empty { IfOk result (λ queue. queued queue ≡ []) }
        ensures room { IfOk result (λ queue. length queue.room.items ≡ count) }
    {
        let room = vec![in alloc; Run::default(); count]?;
        Ok(RunQueue {
            room,
            begin: 0,
            end: 0,
        })
    }
}

impl<S: Copy> RunQueue<S> {
    ghost use Rattle.std.specs.Prelude.{◌≡◌, ◌<◌, ◌∷◌, ◌++◌, [], drop, slice_get};
    ghost use Rattle.answer_lanes.specs.Queues.{HasSameRoom, queued};

    /// Puts a run behind the others, of which there are fewer than it has room for.
    pub(crate) fn put(&mut self, run: &Run<S>)
        requires { length (queued self.old) < length self.old.room.items }
        ensures runs { queued self.new ≡ queued self.old ++ run.now ∷ [] }
        ensures room { HasSameRoom self.old self.new }
    {
        self.make_room();
        // Field by field, since a copy of the whole takes the unused bytes behind its fields along.
        let place = &mut self.room[self.end];
        place.first = run.first;
        place.taken = run.taken;
        place.count = run.count;
        self.end += 1;
    }

    // Makes room for one run more behind the others.
    fn make_room(&mut self)
        requires { length (queued self.old) < length self.old.room.items }
        ensures runs { queued self.new ≡ queued self.old }
        ensures behind { self.new.end < length self.new.room.items }
        ensures room { HasSameRoom self.old self.new }
    {
        if self.end < self.room.len() {
            return;
        }
        self.close_up();
    }

    // Moves the runs to the front of the room.
    #[inline(never)]
    fn close_up(&mut self)
        ensures runs { queued self.new ≡ queued self.old }
        ensures end { self.new.end ≡ length (queued self.old) }
        ensures room { HasSameRoom self.old self.new }
    {
        self.room.copy_within(self.begin..self.end, 0);
        self.end -= self.begin;
        self.begin = 0;
    }

    /// The runs, the first one in front.
    pub(crate) fn as_slice(&self) -> &[Run<S>]
        ensures { result.now ≡ queued self.now }
    {
        &self.room.as_slice()[self.begin..self.end]
    }

    /// The first run.
    pub(crate) fn first(&self) -> Option<Run<S>>
        ensures { result ≡ slice_get (queued self.now) 0 }
    {
        self.as_slice().first().copied()
    }

    /// Puts a run in place of the first one.
    pub(crate) fn set_first(&mut self, run: Run<S>)
        requires { 0 < length (queued self.old) }
        ensures runs { queued self.new ≡ run ∷ drop 1 (queued self.old) }
        ensures room { HasSameRoom self.old self.new }
    {
        self.room[self.begin] = run;
    }

    /// Takes the first runs out, so many.
    pub(crate) fn take(&mut self, count: usize)
        requires { count ≤ length (queued self.old) }
        ensures runs { queued self.new ≡ drop count (queued self.old) }
        ensures room { HasSameRoom self.old self.new }
    {
        self.begin += count;
    }

    /// Takes all runs out.
    pub(crate) fn clear(&mut self)
        ensures runs { queued self.new ≡ [] }
        ensures room { HasSameRoom self.old self.new }
    {
        self.begin = 0;
        self.end = 0;
    }
}
