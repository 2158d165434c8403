ghost use Rattle.std.specs.Prelude.{◌≡◌, ◌≤◌, ◌+◌, ◌++◌, [], All, length, take};
ghost use Rattle.tick_units.specs.Lane.{after_turn, turn_count};
ghost use Rattle.answer_lanes.specs.Runs.{HoldsItems, all_items};

use crate::lane::Lane;
use crate::run::Run;
use crate::several::Several;
use arrayvec::ArrayVec;

/// Moves the first items of a lane, as many as its quota allows, into an empty list, each by itself. `runs` is room for
/// the runs that they stand in.
pub fn take_items<S: Several>(
    lane: &mut Lane<S>,
    runs: &mut ArrayVec<Run<S>, 32>,
    into: &mut ArrayVec<S::Item, 32>,
)
    requires empty { (runs.old.items ≡ []) × (into.old.items ≡ []) }
    requires few { lane.old.quota ≤ 32 }
    ensures moved { into.new.items ≡ take (turn_count lane.old) lane.old.items }
    ensures rest { lane.new ≡ after_turn lane.old }
{
    lane.take_turn(runs);
    put_items(runs.as_slice(), into);
}

// Puts the items of runs behind those in a list.
fn put_items<S: Several>(runs: &[Run<S>], into: &mut ArrayVec<S::Item, 32>)
    requires held { All HoldsItems runs.now }
    requires room { length into.old.items + length (all_items S.item_at runs.now) ≤ 32 }
    ensures { into.new.items ≡ into.old.items ++ all_items S.item_at runs.now }
{
    for run in runs {
        run.put_all(into);
    }
}
