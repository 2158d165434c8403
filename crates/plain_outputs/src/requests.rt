//! What the latest turns of Effect ask for.

ghost use Rattle.std.specs.Prelude.{◌≡◌, ℕ, List, slice_get};
ghost use Rattle.site_types.specs.Valid.{IsPanel, IsValid};
ghost use Rattle.marker_table.specs.Equations.{values_of};
ghost use Rattle.panel_rules.specs.Markers.{Facts as FactsOf};
ghost use Rattle.panel_rules.specs.Moments.{Moment as MomentOf};
ghost use Rattle.panel_rules.specs.Outputs.{is_requested as is_requested_in};
ghost use Rattle.panel_rules.specs.Outputs.{is_requested_by_hand as is_requested_by_hand_in, on_output};
ghost use Rattle.panel_rules.specs.Outputs.{panel_of_output as panel_in, released_at_drive as released_at_drive_in};
ghost use Rattle.panel_rules.specs.Outputs.{released_at_effect as released_at_effect_in};
ghost use Rattle.plain_outputs.specs.Drives.{AreSeen};
ghost use Rattle.panel_bridges.specs.FactMasks.{AreZones};
ghost use Rattle.plain_outputs.specs.Outputs.{TellsOf};

use crate::seen::Seen;
use crate::turns::before_latest;
use marker_table::Values;
use site_types::Site;
use tick_units::Task;

/// The panel of an output, 0 where the site hasn't it.
pub(crate) fn panel_of_output(site: &Site, output: u16) -> u8
    ensures { result ≡ panel_in site.now output }
{
    match site.outputs.get(output as usize) {
        None => 0,
        Some(output) => output.panel,
    }
}

// Whether the marker of an output is true.
fn is_true(site: &Site, output: u16, values: &Values) -> bool
    ensures { result ≡ on_output (λ o. values_of values.now o.marker)
        (slice_get site.now.outputs output) }
{
    match site.outputs.get(output as usize) {
        None => false,
        Some(output) => values.is_true(output.marker),
    }
}

/// Whether the latest turn of Effect requests an output.
pub(crate) fn is_requested(site: &Site, output: u16, seen: &[Seen]) -> bool
    requires { IsValid site.now }
    ensures { TellsOf site.now seen.now (λ facts. is_requested_in site.now facts output) result }
{
    match before_latest(panel_of_output(site, output), Task::Effect, seen) {
        None => false,
        Some(place) => is_true(site, output, &seen[place].values),
    }
}

/// Whether the latest turn of Effect requests an output by hand.
pub(crate) fn is_requested_by_hand(site: &Site, output: u16, seen: &[Seen]) -> bool
    requires { IsValid site.now }
    ensures { TellsOf site.now seen.now (λ facts. is_requested_by_hand_in site.now facts output)
        result }
{
    match before_latest(panel_of_output(site, output), Task::Effect, seen) {
        None => false,
        Some(place) => is_true(site, output, &seen[place].by_hand),
    }
}

/// The zones that were released for the latest turn of Effect of a panel, as masks by panel.
pub(crate) fn released_at_effect(site: &Site, panel: u8, seen: &[Seen]) -> [u32; 8]
    requires { IsPanel site.now panel }
    ensures { (facts : ℕ → List MomentOf → FactsOf) (history : List MomentOf)
        → AreSeen site.now facts seen.now history
        → AreZones site.now (released_at_effect_in site.now facts panel history) result }
{
    match before_latest(panel, Task::Effect, seen) {
        None => [0; 8],
        Some(place) => seen[place].released,
    }
}

/// The zones that were released for the latest turn of Effect before the latest one of Drive.
pub(crate) fn released_at_drive(site: &Site, panel: u8, seen: &[Seen]) -> [u32; 8]
    requires { IsPanel site.now panel }
    ensures { (facts : ℕ → List MomentOf → FactsOf) (history : List MomentOf)
        → AreSeen site.now facts seen.now history
        → AreZones site.now (released_at_drive_in site.now facts panel history) result }
{
    match before_latest(panel, Task::Drive, seen) {
        None => [0; 8],
        Some(place) => released_at_effect(site, panel, &seen[..place]),
    }
}
