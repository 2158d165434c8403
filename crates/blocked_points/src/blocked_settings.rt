//! Which points and zones are disabled or in test.

ghost use Rattle.std.specs.Prelude.{◌≡◌, false, slice_index_or, slice_set};

use crate::block::Block;
use crate::done_operation::DoneOperation;
use crate::kept_settings::kept_flags;
use site_types::{Item, Operation, Point, Retained, Site};
use std::alloc::Global;
use tick_units::NoMemory;

/// The settings that block points, by places.
#[derive(Drop)]
pub struct BlockedSettings {
    points_off: Vec<bool>,
    zones_off: Vec<bool>,
    tests: Vec<bool>,
}

impl BlockedSettings {
    ghost use Rattle.std.specs.Prelude.{[], ◌∷◌, List, ℕ, IfOk, Some, slice_get};
    ghost use Rattle.site_types.specs.declared.retained.Retained.{Retained as RetainedOf};
    ghost use Rattle.site_types.specs.declared.site.Site.{Site as SiteOf};
    ghost use Rattle.site_types.specs.Done.{Done};
    ghost use Rattle.site_types.specs.Valid.{IsValid};
    ghost use Rattle.blocked_points.specs.BlocksStand.{BlocksStand};
    ghost use Rattle.blocked_points.specs.Operations.{as_done, is_blocked_after};

    /// No operation was done.
    pub fn new(alloc: Global, site: &Site, kept: &Retained) -> Result<BlockedSettings, NoMemory>
        ensures { IfOk result (λ blocked. BlocksStand site.now kept.now [] blocked) }
    {
        let points_off = kept_flags(alloc, site, kept, Block::PointOff, site.points.len())?;
        let zones_off = kept_flags(alloc, site, kept, Block::ZoneOff, site.zones.len())?;
        let tests = kept_flags(alloc, site, kept, Block::InTest, site.zones.len())?;
        Ok(BlockedSettings {
            points_off,
            zones_off,
            tests,
        })
    }

    /// Takes an operation that was done.
    pub fn take(&mut self, done: &DoneOperation)
        ensures { (site : SiteOf) (kept : RetainedOf) (before : List Done)
            → BlocksStand site kept before self.old
            → BlocksStand site kept (as_done done.now ∷ before) self.new }
    {
        match done.operation {
            Operation::Disable(Item::Point(point)) => set_flag(
                &mut self.points_off,
                point as usize,
                true,
            ),
            Operation::Disable(Item::Zone(zone)) => set_flag(
                &mut self.zones_off,
                zone as usize,
                true,
            ),
            Operation::Disable(Item::Output(_)) => {}
            Operation::Enable(Item::Point(point)) => set_flag(
                &mut self.points_off,
                point as usize,
                false,
            ),
            Operation::Enable(Item::Zone(zone)) => set_flag(
                &mut self.zones_off,
                zone as usize,
                false,
            ),
            Operation::Enable(Item::Output(_)) => {}
            Operation::Test(zone) => set_flag(&mut self.tests, zone as usize, true),
            Operation::Untest(zone) => set_flag(&mut self.tests, zone as usize, false),
            Operation::Mute => {}
            Operation::Override => {}
            Operation::Silence => {}
            Operation::Resound => {}
            Operation::Reset => {}
            Operation::Cancel(_) => {}
            Operation::Delays(_) => {}
            Operation::Clear => {}
        }
    }

    /// Whether a point is disabled, or its zone is disabled or in test.
    pub fn blocks(&self, place: usize, point: &Point) -> bool
        ensures { (site : SiteOf) (kept : RetainedOf) (before : List Done) → IsValid site
            → slice_get site.points place ≡ Some point.now → BlocksStand site kept before self.now
            → result ≡ is_blocked_after site kept before place }
    {
        flag(&self.points_off, place)
            || flag(&self.zones_off, point.zone as usize)
            || flag(&self.tests, point.zone as usize)
    }
}

fn flag(flags: &[bool], place: usize) -> bool
    ensures { result ≡ slice_index_or flags.now place false }
{
    match flags.get(place) {
        None => false,
        Some(flag) => *flag,
    }
}

/// Sets the flag at a place; what the site hasn't isn't set.
pub fn set_flag(flags: &mut [bool], place: usize, value: bool)
    ensures { flags.new ≡ slice_set flags.old place value }
{
    if place < flags.len() {
        flags[place] = value;
    }
}
