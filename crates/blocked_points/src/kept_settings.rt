//! The settings of points and zones by what was retained.

ghost use Rattle.std.specs.Prelude.{IfOk};
ghost use Rattle.site_types.specs.Done.{at_opening};
ghost use Rattle.panel_settings.specs.Settings.{setting_from};
ghost use Rattle.blocked_points.specs.Blocks.{AreBlockFlags, block_setting};

use crate::block::Block;
use panel_settings::{Setting, value_in};
use site_types::{Retained, Site};
use std::alloc::Global;
use tick_units::NoMemory;

/// A flag for each of so many points or zones: whether the setting is in what was retained.
pub fn kept_flags(
    alloc: Global,
    site: &Site,
    kept: &Retained,
    block: Block,
    count: usize,
) -> Result<Vec<bool>, NoMemory>
    ensures { IfOk result (λ flags. AreBlockFlags count
        (λ place. at_opening site.now kept.now (block_setting block place)) flags.items) }
{
    let mut flags = Vec::new(alloc);
    for place in 0..count {
        flags.push(value_in(site, kept, setting_of(block, place)))?;
    }
    Ok(flags)
}

ghost use Rattle.std.specs.Prelude.{◌≡◌};

fn setting_of(block: Block, place: usize) -> Setting
    ensures { setting_from result ≡ block_setting block place }
{
    match block {
        Block::PointOff => Setting::PointOff(place),
        Block::ZoneOff => Setting::ZoneOff(place),
        Block::InTest => Setting::InTest(place),
    }
}
