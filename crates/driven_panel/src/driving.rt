//! A system with its journal, driven tick by tick.

ghost use Rattle.std.specs.Prelude.{◌≡◌, ◌<◌, ◌≤◌, IfOk};
ghost use Rattle.tick_units.specs.Orders.{IsOrder};
ghost use Rattle.site_types.specs.Valid.{IsValid};
ghost use Rattle.driven_panel.specs.Installations.{IsBetween, HasBegun};

use crate::installation::Installation;
use anyhow::{Result, bail};
use cause_effect::{Steps, compile};
use face_text::Face;
use panel_core::{OrderForm, Store, System};
use panel_edges::MemoryDisk;
use retained_journal::Journal;
use site_types::{Event, Retained, Site};
use std::alloc::Global;
use std::marker::Brand;
use std::sync::ledger::{Blank, Ledger};
use tick_units::{Order, Task, Tick};

/// How many calls and written bytes the log of a disk has room for.
const MOST_CALLS: usize = 4_000;

const MOST_WRITTEN: usize = 400_000;

/// A system before its first tick, with nothing retained and a disk whose calls of these numbers fail.
pub fn opened(alloc: Global, site: Site, fails: Vec<u64>) -> Result<Installation>
    requires { IsValid site }
    ensures { IfOk result (IsBetween site.panels) }
{
    let empty = Vec::new(alloc);
    let Ok(mut disk) = MemoryDisk::new(alloc, empty, MOST_CALLS, MOST_WRITTEN, fails) else {
        bail!("no memory");
    };
    let Ok((journal, _)) = Journal::open(&mut disk, [0; 32], site.format == 2) else {
        bail!("the journal isn't opened");
    };
    let Ok(plan) = compile(alloc, &site) else {
        bail!("no plan of the markers");
    };
    let Ok(system) = System::open(alloc, site, plan, &Retained::empty()) else {
        bail!("no memory");
    };
    Ok(Installation {
        system,
        journal,
        disk,
        events: 0,
    })
}

/// The next tick: its events, and its turns in an order. Tells what Keep's turn answered.
pub fn run_events(
    own: &mut Installation,
    panels: u8,
    events: &[Event],
    order: &Order,
) -> Result<Store>
    requires between { IsBetween panels own.old }
    requires ordered { IsOrder panels order.now }
    ensures { IfOk result (λ _. IsBetween panels own.new) }
{
    begin(own, panels)?;
    for event in events {
        happen(own, panels, event)?;
    }
    Ok(turn_all(own, panels, order))
}

// The next tick begins.
fn begin(own: &mut Installation, panels: u8) -> Result<u64>
    requires { IsBetween panels own.old }
    ensures { IfOk result (λ _. HasBegun panels own.new) }
{
    let now = own.system.now();
    if now.0 >= 1_000_000 {
        bail!("too many ticks");
    }
    own.system.begin(Tick(now.0 + 1));
    Ok(now.0 + 1)
}

// An event happens, if the site has what it names.
fn happen(own: &mut Installation, panels: u8, event: &Event) -> Result<()>
    requires { HasBegun panels own.old }
    ensures { IfOk result (λ _. HasBegun panels own.new) }
{
    if own.events >= 1_000_000 {
        bail!("too many events");
    }
    if !own.system.site().has_event(event) {
        bail!("an event of another site");
    }
    own.system.event(event);
    own.events += 1;
    Ok(())
}

// Each seat has its turn, in this order.
fn turn_all(own: &mut Installation, panels: u8, order: &Order) -> Store
    requires begun { HasBegun panels own.old }
    requires ordered { IsOrder panels order.now }
    ensures { IsBetween panels own.new }
{
    turn_counted::<Brand>(own, panels, order, Blank::new(1))
}

// Each seat has its turn, in this order; the steps of Drive are counted and let go.
fn turn_counted<L: Ledger>(own: &mut Installation, panels: u8, order: &Order, blank: Blank) -> Store
    requires begun { HasBegun panels own.old }
    requires ordered { IsOrder panels order.now }
    requires name { blank.name ≡ L.name }
    requires parts { blank.parts ≡ L.parts }
    requires some { 0 < blank.parts }
    ensures { IsBetween panels own.new }
{
    let mut steps: Steps<L> = Steps::new(blank);
    own.system.turns(
        order,
        OrderForm::Any,
        &mut own.journal,
        &mut own.disk,
        &mut steps,
    )
}

/// All that a panel shows.
pub fn face_of(own: &Installation, panels: u8, panel: u8) -> Face
    requires between { IsBetween panels own.now }
    requires first { 1 ≤ panel }
    requires last { panel ≤ panels }
{
    own.system.face(panel)
}

/// How much the Decide and the Hold of panel 1 have taken.
pub fn taken(own: &Installation, panels: u8) -> (u64, u64)
    requires { IsBetween panels own.now }
{
    let decided = own.system.taken(1, Task::Decide);
    (decided, own.system.taken(1, Task::Hold))
}
