//! The outputs that are disabled by what was retained.

ghost use Rattle.std.specs.Prelude.{IfOk};
ghost use Rattle.site_types.specs.Done.{OutputOff, at_opening};
ghost use Rattle.blocked_points.specs.Blocks.{AreBlockFlags};

use panel_settings::{Setting, value_in};
use site_types::{Retained, Site};
use std::alloc::Global;
use tick_units::NoMemory;

/// A flag for each of so many outputs: whether what was retained has it disabled.
pub(crate) fn kept_outputs(
    alloc: Global,
    site: &Site,
    kept: &Retained,
    count: usize,
) -> Result<Vec<bool>, NoMemory>
    ensures { IfOk result (λ flags. AreBlockFlags count
        (λ place. at_opening site.now kept.now (OutputOff place)) flags.items) }
{
    let mut flags = Vec::new(alloc);
    for place in 0..count {
        flags.push(value_in(site, kept, Setting::OutputOff(place)))?;
    }
    Ok(flags)
}
