ghost use Rattle.std.specs.Prelude.{◌≡◌, ◌≤◌, ◌<◌, ℕ, List, Some, length, slice_get, take};
ghost use Rattle.site_types.specs.declared.retained.Retained.{Retained as RetainedOf};
ghost use Rattle.site_types.specs.declared.site.Site.{Site as SiteOf};
ghost use Rattle.blocked_points.specs.declared.done_operation.DoneOperation.{DoneOperation as DoneOperationOf};

use crate::blocked_settings::BlockedSettings;
use crate::done_operation::DoneOperation;
use site_types::{Point, Retained, Site};
use std::alloc::Global;
use tick_units::{NoMemory, Tick};

/// Which points are blocked at a tick, by what was retained and by the operations that were done before.
#[derive(Drop)]
pub struct BlockedPoints {
    settings: BlockedSettings,
    /// How many operations are in force.
    in_force: usize,
}

impl BlockedPoints {
    ghost use Rattle.std.specs.Prelude.{IfOk, false};
    ghost use Rattle.blocked_points.specs.Operations.{AreDoneInOrder};
    ghost use Rattle.blocked_points.specs.Stands.{StandsFor, TellsBlocked};

    /// Before the first tick.
    pub fn new(alloc: Global, site: &Site, kept: &Retained) -> Result<BlockedPoints, NoMemory>
        ensures { IfOk result (λ blocked. (operations : List DoneOperationOf)
            → AreDoneInOrder operations → StandsFor site.now kept.now operations 0 blocked) }
    {
        let settings = BlockedSettings::new(alloc, site, kept)?;
        Ok(BlockedPoints {
            settings,
            in_force: 0,
        })
    }

    /// Goes on to a tick, and tells whether an operation came into force.
    pub fn tick(&mut self, done: &[DoneOperation], now: Tick) -> bool
        ensures stands { (site : SiteOf) (kept : RetainedOf) (tick : ℕ) → tick ≤ now.0
            → StandsFor site kept done.now tick self.old
            → StandsFor site kept done.now now.0 self.new }
        ensures same { result ≡ false → self.new ≡ self.old }
    {
        let end = count_before(done, self.in_force, now);
        if end <= self.in_force {
            return false;
        }
        take_each(&mut self.settings, done, self.in_force, end);
        self.in_force = end;
        true
    }

    /// Whether at this tick a point is disabled, or its zone is disabled or in test.
    pub fn blocks(&self, place: usize, point: &Point) -> bool
        ensures { TellsBlocked self.now place point.now result }
    {
        self.settings.blocks(place, point)
    }
}

/// The place of the first operation from a place on that wasn't done before a tick, or how many there are.
pub fn count_before(done: &[DoneOperation], from: usize, now: Tick) -> usize
    ensures within { result ≤ length done.now }
    ensures earlier { (place : ℕ) (d : DoneOperationOf) → from ≤ place → place < result
        → slice_get done.now place ≡ Some d → d.tick.0 < now.0 }
    ensures later { (d : DoneOperationOf) → slice_get done.now result ≡ Some d → now.0 ≤ d.tick.0 }
    ensures from { from ≤ length done.now → from ≤ result }
{
    for place in from..done.len() {
        if done[place].tick.0 >= now.0 {
            return place;
        }
    }
    done.len()
}

ghost use Rattle.blocked_points.specs.BlocksStand.{BlocksStand};
ghost use Rattle.blocked_points.specs.Operations.{done_newest_first as all_done_of};

// Takes the operations from a place on and before another.
fn take_each(settings: &mut BlockedSettings, done: &[DoneOperation], from: usize, end: usize)
    requires { end ≤ length done.now }
    ensures { (site : SiteOf) (kept : RetainedOf) → from ≤ end
        → BlocksStand site kept (all_done_of (take from done.now)) settings.old
        → BlocksStand site kept (all_done_of (take end done.now)) settings.new }
{
    for place in from..end {
        settings.take(&done[place]);
    }
}
