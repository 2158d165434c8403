ghost use Rattle.std.specs.Prelude.{◌≡◌, ◌≤◌, ℕ, List, length, take};
ghost use Rattle.site_types.specs.declared.retained.Retained.{Retained as RetainedOf};
ghost use Rattle.site_types.specs.declared.site.Site.{Site as SiteOf};
ghost use Rattle.blocked_points.specs.declared.done_operation.DoneOperation.{DoneOperation as DoneOperationOf};

use crate::output_settings::OutputSettings;
use blocked_points::{DoneOperation, count_before};
use site_types::{Output, OutputKind, Retained, Site};
use std::alloc::Global;
use tick_units::{NoMemory, Tick};

/// Which outputs need not be on at a tick, by what was retained and by the operations that were done before.
#[derive(Drop)]
pub struct ExcusedOutputs {
    settings: OutputSettings,
    /// How many operations are in force.
    in_force: usize,
}

impl ExcusedOutputs {
    ghost use Rattle.std.specs.Prelude.{IfOk};
    ghost use Rattle.blocked_points.specs.Operations.{AreDoneInOrder};
    ghost use Rattle.excused_outputs.specs.Excused.{StandsFor, TellsExcused};

    /// Before the first tick.
    pub fn new(alloc: Global, site: &Site, kept: &Retained) -> Result<ExcusedOutputs, NoMemory>
        ensures { IfOk result (λ excused. (operations : List DoneOperationOf)
            → AreDoneInOrder operations → StandsFor site.now kept.now operations 0 excused) }
    {
        let settings = OutputSettings::new(alloc, site, kept)?;
        Ok(ExcusedOutputs {
            settings,
            in_force: 0,
        })
    }

    /// Goes on to a tick.
    pub fn tick(&mut self, done: &[DoneOperation], now: Tick)
        ensures { (site : SiteOf) (kept : RetainedOf) (tick : ℕ) → tick ≤ now.0
            → StandsFor site kept done.now tick self.old
            → StandsFor site kept done.now now.0 self.new }
    {
        let end = count_before(done, self.in_force, now);
        take_each(&mut self.settings, done, self.in_force, end);
        self.in_force = end;
    }

    /// Whether at this tick an output is disabled, or is a sounder of a panel that was silenced.
    pub fn excuses(&self, place: usize, output: &Output) -> bool
        ensures { TellsExcused self.now place output.now result }
    {
        self.settings.is_off(place) || is_sounder(output) && self.settings.is_silenced(output.panel)
    }
}

ghost use Rattle.panel_rules.specs.Outputs.{is_sounder_kind};

fn is_sounder(output: &Output) -> bool
    ensures { result ≡ is_sounder_kind output.now.kind }
{
    match output.kind {
        OutputKind::Sounder => true,
        OutputKind::Routing => false,
        OutputKind::Protection => false,
        OutputKind::Relay => false,
    }
}

ghost use Rattle.blocked_points.specs.Operations.{done_newest_first as all_done_of};
ghost use Rattle.excused_outputs.specs.Behind.{SettingsStand};

// Takes the operations from a place on and before another.
fn take_each(settings: &mut OutputSettings, done: &[DoneOperation], from: usize, end: usize)
    requires { end ≤ length done.now }
    ensures { (site : SiteOf) (kept : RetainedOf) → from ≤ end
        → SettingsStand site kept (all_done_of (take from done.now)) settings.old
        → SettingsStand site kept (all_done_of (take end done.now)) settings.new }
{
    for place in from..end {
        settings.take(&done[place]);
    }
}
