//! The site of a drill at work.

ghost use Rattle.std.specs.Prelude.{◌≡◌, ◌<◌, [], IfOk, IsOk, false};
ghost use Rattle.panel_core.specs.Keeping.{has_failed};
ghost use Rattle.panel_parts.specs.Stands.{HasPlan};
ghost use Rattle.panel_drill.specs.Running.{IsAfter, IsUnderWay, RunsTick, MayTell, MayRunTurns, TellsAll, RunsTurns};
ghost use Rattle.panel_drill.specs.Running.{OpensFor};
ghost use Rattle.site_types.specs.Valid.{IsValid};

use cause_effect::{Plan, Steps};
use drill_record::{Drawer, reversed_order};
use panel_core::{OrderForm, Store, System};
use panel_edges::SoundMemoryDisk;
use retained_journal::Journal;
use site_types::{Event, Retained, Site};
use std::alloc::Global;
use std::marker::Brand;
use std::sync::ledger::{Blank, Ledger};
use tick_units::{NoMemory, Order, Tick};

/// A system with its journal on a disk that never fails, and the record that it runs over.
#[derive(Drop)]
pub(crate) struct Running {
    pub(crate) system: System,
    pub(crate) journal: Journal,
    pub(crate) disk: SoundMemoryDisk,
    pub(crate) canonical: Order,
    pub(crate) reversed: Order,
    pub(crate) drawer: Drawer,
}

impl Running {
    /// Before the first tick.
    pub(crate) fn open(
        alloc: Global,
        site: Site,
        plan: Plan,
        digest: [u8; 32],
        seed: u64,
    ) -> Result<Running, NoMemory>
        requires valid { IsValid site }
        requires plan { HasPlan site plan }
        ensures { IfOk result (IsAfter site seed 0) }
    {
        let Ok(mut disk) = SoundMemoryDisk::new(alloc, Vec::new(alloc)) else {
            return Err(NoMemory);
        };
        let Ok(journal) = open_journal(&mut disk, digest, site.format == 2) else {
            return Err(NoMemory);
        };
        let canonical = Order::canonical(site.panels);
        let reversed = reversed_order(site.panels);
        let system = System::open(alloc, site, plan, &Retained::empty())?;
        Ok(Running {
            system,
            journal,
            disk,
            canonical,
            reversed,
            drawer: Drawer::new(seed),
        })
    }

    /// The next tick: what is drawn for it, and its turns.
    pub(crate) fn run_tick(&mut self, tick: Tick)
        requires { IsUnderWay tick.0 self.old }
        ensures { RunsTick tick.0 self.old self.new }
    {
        self.system.begin(tick);
        let drawn = self.drawer.next_tick();
        tell(&mut self.system, drawn.event);
        self.turn_counted::<Brand>(drawn.reversed, Blank::new(1));
    }

    // Each seat has its turn, with a counter of steps that is let go. Keep's doesn't fail, since the disk doesn't.
    fn turn_counted<L: Ledger>(&mut self, reversed: bool, blank: Blank) -> Store
        requires may { MayRunTurns reversed self.old }
        requires name { blank.name ≡ L.name }
        requires parts { blank.parts ≡ L.parts }
        requires some { 0 < blank.parts }
        ensures turns { RunsTurns reversed self.old self.new }
        ensures kept { has_failed result ≡ false }
    {
        let mut steps: Steps<L> = Steps::new(blank);
        if reversed {
            self.system.turns(
                &self.reversed,
                OrderForm::Reversed,
                &mut self.journal,
                &mut self.disk,
                &mut steps,
            )
        } else {
            self.system.turns(
                &self.canonical,
                OrderForm::Canonical,
                &mut self.journal,
                &mut self.disk,
                &mut steps,
            )
        }
    }
}

// The event that was drawn, if there is one and the site has its point.
fn tell(system: &mut System, event: Option<Event>)
    requires { MayTell system.old }
    ensures { TellsAll event system.old system.new }
{
    if let Some(event) = event {
        if system.site().has_event(&event) {
            system.event(&event);
        }
    }
}

// A new journal on an empty disk that never fails. It is always opened.
fn open_journal(
    disk: &mut SoundMemoryDisk,
    digest: [u8; 32],
    wide: bool,
) -> Result<Journal, NoMemory>
    requires { disk.old.bytes.items ≡ [] }
    ensures opens { IsOk result }
    ensures journal { IfOk result (OpensFor wide disk.new) }
{
    match Journal::open(disk, digest, wide) {
        Ok((journal, _)) => Ok(journal),
        Err(_) => Err(NoMemory),
    }
}
