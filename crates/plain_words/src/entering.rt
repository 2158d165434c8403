ghost use Rattle.std.specs.Prelude.{◌≡◌, ◌≤◌, ◌==◌, [], ◌∷◌, IfOk, List, OnOk, not, ℕ};
ghost use Rattle.coincidence_rules.specs.Alarm.{is_in_alarm};
ghost use Rattle.coincidence_rules.specs.Places.{zones_where};
ghost use Rattle.site_types.specs.declared.retained.Retained.{Retained as RetainedOf};
ghost use Rattle.site_types.specs.Done.{Done as DoneOf};
ghost use Rattle.site_types.specs.Valid.{IsValid};
ghost use Rattle.panel_rules.specs.Moments.{Moment as MomentOf, tick_of};
ghost use Rattle.plain_history.specs.Histories.{moment_of};

use crate::asking::Asking;
use crate::evidence::Evidence;
use crate::zone_state::ZoneState;
use plain_history::{Moment, Settings};
use site_types::{Answer, Site};
use std::alloc::Global;
use tick_units::{NoMemory, Task, Tick};

/// The answers of a panel, and how often it entered the fire alarm condition since the latest turn of Keep
/// that did not fail.
#[derive(Drop)]
pub struct Entering {
    panel: u8,
    asking: Asking,
    // The tick of the latest turn of Hold, else 0.
    held_at: Tick,
    entries: u32,
}

impl Entering {
    ghost use Rattle.plain_words.specs.Enterings.{EntersAtHoldBy, EntersBy, EntersSome, StandsForEntering};

    /// A panel of a site, 1 to its panels, of which nothing befell.
    pub fn new(alloc: Global, site: &Site, panel: u8) -> Result<Entering, NoMemory>
        requires { IsValid site.now }
        ensures { IfOk result (λ entering. (kept : RetainedOf) (done : List DoneOf)
            → StandsForEntering site.now kept done panel [] entering) }
    {
        Ok(Entering {
            panel,
            asking: Asking::new(alloc, site, panel)?,
            held_at: Tick(0),
            entries: 0,
        })
    }

    /// Takes one moment more, in the tick that began last before it, where some operations were done.
    pub fn step(
        &mut self,
        alloc: Global,
        settings: &Settings,
        tick: Tick,
        moment: &Moment,
    ) -> Result<(), NoMemory>
        requires { EntersSome settings.now.site.now self.old }
        ensures { OnOk result
            (EntersBy settings.now tick.0 (moment_of moment.now) self.old
            self.new) }
    {
        match *moment {
            Moment::Began => self.asking.step(alloc, settings.site, moment, tick),
            Moment::Happened(_) => self.asking.step(alloc, settings.site, moment, tick),
            Moment::Turned { panel, task } => self.turn(alloc, settings, tick, panel, task),
            Moment::Kept { failed } => {
                self.asking.step(alloc, settings.site, moment, tick)?;
                self.entries = entries_kept(self.entries, failed);
                Ok(())
            }
        }
    }

    /// The panel.
    pub fn panel(&self) -> u8
        ensures { result ≡ self.now.panel }
    {
        self.panel
    }

    /// The answers whose findings the panel's Hold has taken.
    pub fn held(&self) -> &[Answer]
        ensures { (site : SiteOf) (kept : RetainedOf) (done : List DoneOf) (panel : ℕ) (history :
            List MomentOf) → StandsForEntering site kept done panel history self.now
            → result.now ≡ held_answers site panel history }
    {
        self.asking.held()
    }

    /// How often it entered the condition.
    pub fn entries(&self) -> u32
        ensures { result ≡ self.now.entries }
    {
        self.entries
    }

    // A task of a panel has its turn.
    fn turn(
        &mut self,
        alloc: Global,
        settings: &Settings,
        tick: Tick,
        panel: u8,
        task: Task,
    ) -> Result<(), NoMemory>
        requires { EntersSome settings.now.site.now self.old }
        ensures { OnOk result
            (EntersBy settings.now tick.0 (TurnedOf panel task) self.old
            self.new) }
    {
        if let Task::Hold = task {
            if panel == self.panel {
                self.hold(alloc, settings, tick)
            } else {
                self.asking.step(alloc, settings.site, &Moment::Turned { panel, task }, tick)
            }
        } else {
            self.asking.step(alloc, settings.site, &Moment::Turned { panel, task }, tick)
        }
    }

    // The panel's Hold has its turn.
    fn hold(&mut self, alloc: Global, settings: &Settings, tick: Tick) -> Result<(), NoMemory>
        requires { EntersSome settings.now.site.now self.old }
        ensures { OnOk result (EntersAtHoldBy settings.now tick.0 self.old
            self.new) }
    {
        let panel = self.panel;
        let was = is_in_fire(settings, panel, self.asking.held(), self.held_at);
        let moment = Moment::Turned {
            panel,
            task: Task::Hold,
        };
        self.asking.step(alloc, settings.site, &moment, tick)?;
        let is = is_in_fire(settings, panel, self.asking.held(), tick);
        self.held_at = tick;
        self.entries = entries_then(self.entries, enters(was, is))?;
        Ok(())
    }
}

ghost use Rattle.tick_units.specs.declared.task.Task.TheVariants.{Hold as HoldTask};
ghost use Rattle.site_types.specs.declared.site.Site.{Site as SiteOf};
ghost use Rattle.panel_rules.specs.Moments.{Turned as TurnedOf};
ghost use Rattle.panel_rules.specs.Zones.{held_answers};
ghost use Rattle.plain_history.specs.Settings.{settled};
ghost use Rattle.plain_words.specs.Enterings.{holds_fire_alarm};
ghost use Rattle.std.specs.Prelude.{◌+◌, ◌&&◌, if◌then◌else◌};

// Whether a panel is in the fire alarm condition by some answers at a tick.
fn is_in_fire(settings: &Settings, panel: u8, answers: &[Answer], tick: Tick) -> bool
    ensures { result ≡ settled holds_fire_alarm settings.now tick.0 answers.now panel }
{
    let evidence = Evidence {
        settings: *settings,
        answers,
    };
    evidence.zones_in_state(ZoneState::Alarm, panel, tick) != 0
}

// What was not so is so now.
fn enters(was: bool, is: bool) -> bool
    ensures { result ≡ (is && not was) }
{
    is && !was
}

// The entries not yet kept, after a turn of Keep.
fn entries_kept(entries: u32, failed: bool) -> u32
    ensures { result ≡ (if failed then entries else 0) }
{
    if failed { entries } else { 0 }
}

// The entries so far with one more, where there was one.
fn entries_then(entries: u32, enters: bool) -> Result<u32, NoMemory>
    ensures { IfOk result (λ count. count ≡ (if enters then entries + 1 else entries)) }
{
    if enters {
        entries.checked_add(1).ok_or(NoMemory)
    } else {
        Ok(entries)
    }
}
