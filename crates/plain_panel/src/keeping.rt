ghost use Rattle.std.specs.Prelude.{◌≡◌, ◌++◌, [], ◌∷◌, IfOk, OnOk};
ghost use Rattle.site_types.specs.Valid.{IsValid};
ghost use Rattle.panel_rules.specs.Moments.{tick_of};
ghost use Rattle.plain_operations.specs.Desks.{StandsForDesk};
ghost use Rattle.plain_panel.specs.SiteStates.{StandsAfter};
ghost use Rattle.plain_history.specs.Histories.{history, moment_of};
ghost use Rattle.plain_panel.specs.Keepings.{StandsForKeeping};

use crate::coming::Coming;
use crate::site_state::SiteState;
use plain_history::{Moment, Settings};
use plain_operations::{Desk, make_change, make_changes};
use plain_words::Entering;
use site_types::{Change, Retained, Site};
use std::alloc::Global;
use tick_units::{NoMemory, Tick};

/// The desk of a site, what stands with the operations that it has done, and what is kept by then.
#[derive(Drop)]
pub struct Keeping {
    pub desk: Desk,
    pub state: SiteState,
    pub stored: Retained,
}

impl Keeping {
    /// Nothing has befallen a site with this kept.
    pub fn new(alloc: Global, site: &Site, kept: &Retained) -> Result<Keeping, NoMemory>
        requires { IsValid site.now }
        ensures { IfOk result (λ keeping. StandsForKeeping site.now kept.now [] keeping) }
    {
        Ok(Keeping {
            desk: Desk::new(alloc),
            state: SiteState::new(alloc, site)?,
            stored: *kept,
        })
    }

    /// Takes one moment more, in the tick that began last before it.
    pub fn step(&mut self, alloc: Global, tick: Tick, coming: &Coming) -> Result<(), NoMemory>
        requires valid { IsValid coming.now.site.now }
        requires stands { StandsForKeeping coming.now.site.now coming.now.kept.now
            (history coming.now.before.now) self.old }
        requires ticks { tick_of (history coming.now.before.now) ≡ tick.0 }
        requires all { coming.now.with_it.now
            ≡ coming.now.before.now ++ coming.now.moment.now ∷ [] }
        ensures { OnOk result (StandsForKeeping coming.now.site.now coming.now.kept.now
            (moment_of coming.now.moment.now ∷ history coming.now.before.now) self.new) }
    {
        self.store_at(coming.site, coming.moment);
        self.go_on(alloc, tick, coming)
    }

    // The desk and what stands take one moment more, once what is kept has been stored.
    fn go_on(&mut self, alloc: Global, tick: Tick, coming: &Coming) -> Result<(), NoMemory>
        requires valid { IsValid coming.now.site.now }
        requires desk { StandsForDesk coming.now.site.now coming.now.kept.now
            (history coming.now.before.now) self.old.desk }
        requires state { StandsAfter coming.now.site.now coming.now.kept.now
            (history coming.now.before.now) self.old.state }
        requires ticks { tick_of (history coming.now.before.now) ≡ tick.0 }
        requires all { coming.now.with_it.now
            ≡ coming.now.before.now ++ coming.now.moment.now ∷ [] }
        ensures desk { OnOk result (StandsForDesk coming.now.site.now coming.now.kept.now
            (moment_of coming.now.moment.now ∷ history coming.now.before.now) self.new.desk) }
        ensures state { OnOk result (StandsAfter coming.now.site.now coming.now.kept.now
            (moment_of coming.now.moment.now ∷ history coming.now.before.now) self.new.state) }
        ensures stored { self.new.stored ≡ self.old.stored }
    {
        let changed = self
            .desk
            .step(coming.site, coming.kept, tick, coming.moment)?;
        let settings = Settings {
            site: coming.site,
            kept: coming.kept,
            done: self.desk.outcomes().done.as_slice(),
        };
        if changed {
            self.state = SiteState::over(alloc, &settings, coming.with_it)?;
            Ok(())
        } else {
            self.state
                .step(alloc, &settings, tick, coming.before, coming.moment)
        }
    }

    // What a moment stores, where it is a turn of Keep that does not fail.
    fn store_at(&mut self, site: &Site, moment: &Moment)
        requires valid { IsValid site.now }
        requires placed { AllPlaced self.old.state.panels.items }
        ensures stored { self.new.stored ≡ stored_after site.now (moment_of moment.now) self.old }
        ensures desk { self.new.desk ≡ self.old.desk }
        ensures state { self.new.state ≡ self.old.state }
    {
        if !stores(moment) {
            return;
        }
        self.store(site);
    }

    // What a turn of Keep stores that does not fail.
    fn store(&mut self, site: &Site)
        requires valid { IsValid site.now }
        requires placed { AllPlaced self.old.state.panels.items }
        ensures stored { self.new.stored ≡ stored_by_keep site.now self.old }
        ensures desk { self.new.desk ≡ self.old.desk }
        ensures state { self.new.state ≡ self.old.state }
    {
        count_entries(&self.state.panels, &mut self.stored);
        make_changes(site, &self.desk.outcomes().waiting, &mut self.stored);
    }
}

ghost use Rattle.site_types.specs.Changes.{IsPanelNumber, changed_by};
ghost use Rattle.plain_panel.specs.Keepings.{AllPlaced, all_counted, counted, is_storing, stored_after, stored_by_keep};

// A moment is a turn of Keep that does not fail.
fn stores(moment: &Moment) -> bool
    ensures { result ≡ is_storing (moment_of moment.now) }
{
    match *moment {
        Moment::Kept { failed } => !failed,
        Moment::Began => false,
        Moment::Happened(_) => false,
        Moment::Turned { .. } => false,
    }
}

// Counts the entries of all panels.
fn count_entries(panels: &[Entering], stored: &mut Retained)
    requires { AllPlaced panels.now }
    ensures { stored.new ≡ changed_by (all_counted panels.now) stored.old }
{
    for entering in panels {
        count_panel(entering, stored);
    }
}

// Counts the entries of a panel.
fn count_panel(entering: &Entering, stored: &mut Retained)
    requires { IsPanelNumber entering.now.panel }
    ensures { stored.new ≡ changed_by (counted entering.now) stored.old }
{
    let entries = entering.entries();
    if entries != 0 {
        let panel = entering.panel();
        make_change(stored, &Change::Count { panel, entries });
    }
}
