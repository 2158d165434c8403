//! How points and zones take the findings of a run of a lane.

ghost use Rattle.std.specs.Prelude.{◌≡◌, ◌+◌, ◌≤◌, slice_index};
ghost use Rattle.answer_lanes.specs.Blocks.{block_finding_at};
ghost use Rattle.answer_lanes.specs.Points.{finding_at};
ghost use Rattle.answer_lanes.specs.Runs.{HasShortCount, items_of};
ghost use Rattle.panel_conditions.specs.Changes.{BothTake};

use crate::points::Points;
use crate::zones::Zones;
use answer_lanes::{FindingBlock, FindingGroup, Run};

/// Takes the findings of a run.
pub fn take_run(points: &mut Points, zones: &mut Zones, run: &Run<FindingBlock>)
    requires { HasShortCount run.now }
    ensures { BothTake (items_of block_finding_at run.now) points.old points.new zones.old
        zones.new }
{
    if run.taken == 0 && run.count == 32 {
        points.take_block(&run.first);
        zones.take_block(&run.first);
    } else if run.taken + run.count <= 8 && run.first.others[0] == 0 {
        take_first_eight(points, zones, run);
    } else {
        take_singly(points, zones, run);
    }
}

// Takes the findings of a run that lies within the first eight of its block, where none tells of other zones.
fn take_first_eight(points: &mut Points, zones: &mut Zones, run: &Run<FindingBlock>)
    requires within { run.now.taken + run.now.count ≤ 8 }
    requires own { slice_index run.now.first.others 0 ≡ 0 }
    ensures { BothTake (items_of block_finding_at run.now) points.old points.new zones.old
        zones.new }
{
    let eight = Run {
        first: run.first.eight(0).group,
        taken: run.taken,
        count: run.count,
    };
    take_narrow(points, zones, &eight);
}

// Takes the findings of a run one by one. It stands apart from the usual ways, so that these need not share registers
// with it.
#[inline(never)]
fn take_singly(points: &mut Points, zones: &mut Zones, run: &Run<FindingBlock>)
    requires { HasShortCount run.now }
    ensures { BothTake (items_of block_finding_at run.now) points.old points.new zones.old
        zones.new }
{
    for place in run.taken..run.taken + run.count {
        take_narrow(points, zones, &Run::one(run.item(place)));
    }
}

// Takes the findings of a run of one eight.
fn take_narrow(points: &mut Points, zones: &mut Zones, run: &Run<FindingGroup>)
    requires { HasShortCount run.now }
    ensures { BothTake (items_of finding_at run.now) points.old points.new zones.old zones.new }
{
    points.take_run(run);
    zones.take_run(run);
}
