ghost use Rattle.std.specs.Prelude.{ℕ, List, [], IfOk};
ghost use Rattle.site_types.specs.Valid.{IsValid};
ghost use Rattle.site_types.specs.declared.site.Site.{Site as SiteOf};
ghost use Rattle.panel_rules.specs.Markers.{Facts as FactsOf};
ghost use Rattle.panel_rules.specs.Moments.{Moment as MomentOf};
ghost use Rattle.plain_outputs.specs.Drives.{DrivesFor};
ghost use Rattle.plain_history.specs.Histories.{moment_of};
ghost use Rattle.plain_outputs.specs.Outputs.{SeesMoment, TellsBy, is_in_state};

use crate::on::is_on;
use crate::output_state::OutputState;
use crate::seen::{Seen, ticks};
use crate::unconfirmed::{is_confirmed, is_unconfirmed};
use marker_table::Facts;
use plain_history::{Moment, Settings};
use site_types::Site;
use std::alloc::Global;
use tick_units::{NoMemory, Tick};

/// The moments up to now with what turns of Effect solved: from them it tells which outputs are on and confirmed.
#[derive(Drop)]
pub struct Driving {
    seen: Vec<Seen>,
}

impl Driving {
    /// Nothing has befallen.
    pub fn new(alloc: Global) -> Driving
        ensures { (site : SiteOf) (facts : ℕ → List MomentOf → FactsOf)
            → DrivesFor site facts [] result }
    {
        Driving {
            seen: Vec::new(alloc),
        }
    }

    /// Takes the next moment. For a turn of Effect the facts are those of that turn, for others they are not looked at.
    pub fn step(&mut self, site: &Site, moment: &Moment, facts: &Facts) -> Result<(), NoMemory>
        requires { IsValid site.now }
        ensures { IfOk result (λ _. SeesMoment site.now (moment_of moment.now) facts.now self.old
            self.new) }
    {
        let tick = Tick(ticks(self.seen.as_slice()));
        self.seen.push(Seen::of(site, moment, tick, facts))?;
        Ok(())
    }

    /// Whether an output is in a state.
    pub fn is_in(&self, state: OutputState, settings: &Settings, output: u16) -> bool
        requires { IsValid settings.now.site.now }
        ensures { TellsBy settings.now output self.now.seen.items (is_in_state state) result }
    {
        let seen = self.seen.as_slice();
        match state {
            OutputState::On => is_on(settings, output, seen),
            OutputState::Confirmed => is_confirmed(settings, output, seen),
            OutputState::Unconfirmed => is_unconfirmed(settings, output, seen),
        }
    }
}
