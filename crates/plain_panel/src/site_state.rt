ghost use Rattle.std.specs.Prelude.{◌≡◌, [], ◌∷◌, IfOk, List, OnOk};
ghost use Rattle.site_types.specs.declared.retained.Retained.{Retained as RetainedOf};
ghost use Rattle.site_types.specs.Done.{Done as DoneOf};
ghost use Rattle.site_types.specs.Valid.{IsValid};
ghost use Rattle.panel_rules.specs.Moments.{tick_of};
ghost use Rattle.plain_history.specs.Histories.{history, moment_of};
ghost use Rattle.plain_panel.specs.SiteStates.{AreEnteringBy, DrivesBy, ShowsBy, SiteStandsBy, StandsForSite};

use crate::network::Network;
use marker_table::Facts;
use plain_history::{Moment, Settings, tick_after};
use plain_outputs::{Driving, OutputState, outputs_in};
use plain_words::{Entering, all_new, held_at, step_all};
use site_types::Site;
use std::alloc::Global;
use tick_units::{NoMemory, Task, Tick};

/// What stands at all panels of a site, where some operations were done.
#[derive(Drop)]
pub struct SiteState {
    pub panels: Vec<Entering>,
    pub network: Network,
    pub driving: Driving,
}

impl SiteState {
    /// Nothing has befallen.
    pub fn new(alloc: Global, site: &Site) -> Result<SiteState, NoMemory>
        requires { IsValid site.now }
        ensures { IfOk result (λ state. (kept : RetainedOf) (done : List DoneOf)
            → StandsForSite site.now kept done [] state) }
    {
        Ok(SiteState {
            panels: all_new(alloc, site)?,
            network: Network::new(site),
            driving: Driving::new(alloc),
        })
    }

    /// Takes one moment more, in the tick that began last before it.
    pub fn step(
        &mut self,
        alloc: Global,
        settings: &Settings,
        tick: Tick,
        before: &[Moment],
        moment: &Moment,
    ) -> Result<(), NoMemory>
        requires valid { IsValid settings.now.site.now }
        requires stands { SiteStandsBy settings.now (history before.now) self.old }
        requires ticks { tick_of (history before.now) ≡ tick.0 }
        ensures { OnOk result
            (SiteStandsBy settings.now (moment_of moment.now ∷ history before.now) self.new) }
    {
        step_all(&mut self.panels, alloc, settings, tick, moment)?;
        let facts = facts_now(&self.network, settings.site, moment);
        self.driving.step(settings.site, moment, &facts)?;
        self.hear(settings, tick, before, moment);
        Ok(())
    }

    /// What stands after some moments.
    pub fn over(
        alloc: Global,
        settings: &Settings,
        moments: &[Moment],
    ) -> Result<SiteState, NoMemory>
        requires { IsValid settings.now.site.now }
        ensures { IfOk result (λ state. SiteStandsBy settings.now (history moments.now) state) }
    {
        let mut state = SiteState::new(alloc, settings.site)?;
        let mut tick = Tick(0);
        for place in 0..moments.len() {
            let moment = moments[place];
            state.step(alloc, settings, tick, &moments[..place], &moment)?;
            tick = tick_after(tick, &moment)?;
        }
        Ok(state)
    }

    // The panel whose Hold has its turn shows what it took; the ring takes what else befalls.
    fn hear(&mut self, settings: &Settings, tick: Tick, before: &[Moment], moment: &Moment)
        requires valid { IsValid settings.now.site.now }
        requires panels { AreEnteringBy settings.now (moment_of moment.now ∷ history before.now)
            self.old.panels.items }
        requires network { ShowsBy settings.now (history before.now) self.old.network }
        requires driving { DrivesBy settings.now (moment_of moment.now ∷ history before.now)
            self.old.driving }
        requires ticks { tick_of (history before.now) ≡ tick.0 }
        ensures panels { self.new.panels ≡ self.old.panels }
        ensures network { ShowsBy settings.now (moment_of moment.now ∷ history before.now)
            self.new.network }
        ensures driving { self.new.driving ≡ self.old.driving }
    {
        match holder(moment) {
            None => self.network.step(tick, moment),
            Some(panel) => {
                let state = OutputState::Unconfirmed;
                let unconfirmed = outputs_in(state, &self.driving, settings, panel);
                let held = held_at(&self.panels, panel);
                self.network
                    .hold(settings, before, tick, panel, held, unconfirmed);
            }
        }
    }
}

ghost use Rattle.site_types.specs.Valid.{IsPanel};
ghost use Rattle.std.specs.Prelude.{MatchOption};
ghost use Rattle.tick_units.specs.declared.task.Task.TheVariants.{Hold as HoldTask};
ghost use Rattle.panel_rules.specs.Moments.{Moment as MomentOf};
ghost use Rattle.panel_rules.specs.Run.{facts_of};
ghost use Rattle.plain_outputs.specs.Drives.{AreFactsOfTurn};
ghost use Rattle.panel_bridges.specs.FactMasks.{AreFacts};
ghost use Rattle.plain_panel.specs.Network.{IsNotHold, StandsFor};

// The panel whose Hold has its turn, where a moment is that.
fn holder(moment: &Moment) -> Option<u8>
    ensures { MatchOption result (IsNotHold moment.now)
        (λ panel. moment.now ≡ Moment.Turned panel HoldTask) }
{
    match *moment {
        Moment::Turned { panel, task } => {
            if let Task::Hold = task {
                Some(panel)
            } else {
                None
            }
        }
        Moment::Began => None,
        Moment::Happened(_) => None,
        Moment::Kept { .. } => None,
    }
}

// The facts of an Effect turn, where a moment is one.
fn facts_now(network: &Network, site: &Site, moment: &Moment) -> Facts
    requires { network.now.panels ≡ site.now.panels }
    ensures { (kept : RetainedOf) (done : List DoneOf) (before : List MomentOf) → IsValid site.now
        → StandsFor site.now kept done before network.now → AreFactsOfTurn site.now
        (facts_of site.now kept done) before (moment_of moment.now) result }
{
    match *moment {
        Moment::Turned { panel, .. } => facts_at(network, site, panel),
        Moment::Began => Facts::default(),
        Moment::Happened(_) => Facts::default(),
        Moment::Kept { .. } => Facts::default(),
    }
}

// The facts of an Effect turn of a panel made now, where there is such a panel.
fn facts_at(network: &Network, site: &Site, panel: u8) -> Facts
    requires { network.now.panels ≡ site.now.panels }
    ensures { (kept : RetainedOf) (done : List DoneOf) (before : List MomentOf) → IsValid site.now
        → StandsFor site.now kept done before network.now → IsPanel site.now panel
        → AreFacts site.now (facts_of site.now kept done panel before) result }
{
    if panel >= 1 && panel <= site.panels {
        network.facts(panel)
    } else {
        Facts::default()
    }
}
