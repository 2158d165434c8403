//! Which outputs are disabled, and which panels are silenced.

ghost use Rattle.std.specs.Prelude.{◌≡◌, false, slice_index_or};

use crate::kept_outputs::kept_outputs;
use blocked_points::{DoneOperation, set_flag};
use site_types::{Item, Operation, Retained, Site};
use std::alloc::Global;
use tick_units::NoMemory;

/// The disablements of outputs by places, and the silences by panels.
#[derive(Drop)]
pub(crate) struct OutputSettings {
    off: Vec<bool>,
    silenced: [bool; 256],
}

impl OutputSettings {
    ghost use Rattle.std.specs.Prelude.{[], ◌∷◌, List, ℕ, IfOk};
    ghost use Rattle.site_types.specs.declared.retained.Retained.{Retained as RetainedOf};
    ghost use Rattle.site_types.specs.declared.site.Site.{Site as SiteOf};
    ghost use Rattle.site_types.specs.Done.{Done};
    ghost use Rattle.blocked_points.specs.Operations.{as_done};
    ghost use Rattle.excused_outputs.specs.Behind.{SettingsStand};

    /// No operation was done.
    pub(crate) fn new(
        alloc: Global,
        site: &Site,
        kept: &Retained,
    ) -> Result<OutputSettings, NoMemory>
        ensures { IfOk result (λ settings. SettingsStand site.now kept.now [] settings) }
    {
        let off = kept_outputs(alloc, site, kept, site.outputs.len())?;
        Ok(OutputSettings {
            off,
            silenced: [false; 256],
        })
    }

    /// Takes an operation that was done.
    pub(crate) fn take(&mut self, done: &DoneOperation)
        ensures { (site : SiteOf) (kept : RetainedOf) (before : List Done)
            → SettingsStand site kept before self.old
            → SettingsStand site kept (as_done done.now ∷ before) self.new }
    {
        match done.operation {
            Operation::Disable(Item::Output(output)) => {
                set_flag(&mut self.off, output as usize, true)
            }
            Operation::Disable(Item::Point(_)) => {}
            Operation::Disable(Item::Zone(_)) => {}
            Operation::Enable(Item::Output(output)) => {
                set_flag(&mut self.off, output as usize, false)
            }
            Operation::Enable(Item::Point(_)) => {}
            Operation::Enable(Item::Zone(_)) => {}
            Operation::Silence => self.silenced[done.panel as usize] = true,
            Operation::Resound => self.silenced[done.panel as usize] = false,
            Operation::Test(_) => {}
            Operation::Untest(_) => {}
            Operation::Mute => {}
            Operation::Override => {}
            Operation::Reset => {}
            Operation::Cancel(_) => {}
            Operation::Delays(_) => {}
            Operation::Clear => {}
        }
    }

    /// Whether an output is disabled.
    pub(crate) fn is_off(&self, place: usize) -> bool
        ensures { result ≡ slice_index_or self.now.off.items place false }
    {
        match self.off.get(place) {
            None => false,
            Some(flag) => *flag,
        }
    }

    /// Whether a panel is silenced.
    pub(crate) fn is_silenced(&self, panel: u8) -> bool
        ensures { result ≡ slice_index_or self.now.silenced panel false }
    {
        self.silenced[panel as usize]
    }
}
