ghost use Rattle.std.specs.Prelude.{IfOk};
ghost use Rattle.panel_bridges.specs.FactMasks.{AreFacts};
ghost use Rattle.plain_history.specs.Histories.{history};
ghost use Rattle.plain_panel.specs.SiteStates.{facts_by};
ghost use Rattle.site_types.specs.Valid.{IsPanel, IsValid};

use crate::site_state::SiteState;
use marker_table::Facts;
use plain_history::{Moment, Settings};
use std::alloc::Global;
use tick_units::NoMemory;

/// The facts that a panel's turn of Effect goes by, made after these moments, the oldest of them first.
pub fn facts_after(
    alloc: Global,
    settings: &Settings,
    moments: &[Moment],
    panel: u8,
) -> Result<Facts, NoMemory>
    requires valid { IsValid settings.now.site.now }
    requires panel { IsPanel settings.now.site.now panel }
    ensures { IfOk result
        (AreFacts settings.now.site.now (facts_by settings.now panel (history moments.now))) }
{
    let state = SiteState::over(alloc, settings, moments)?;
    Ok(state.network.facts(panel))
}
