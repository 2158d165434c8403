//! A record at the system, and by the plain program of the definitions.

ghost use Rattle.std.specs.Prelude.{IfOk};
ghost use Rattle.tick_units.specs.Orders.{IsOrder, IsPanelCount};
ghost use Rattle.site_types.specs.Valid.{IsValid};

use crate::told::Told;
use anyhow::{Result, bail};
use driven_panel::{opened, order_of, run_events, tested_order};
use face_text::{Step, Timeline};
use panel_core::Store;
use plain_history::Moment;
use plain_panel::timeline;
use site_types::{Retained, Site};
use std::alloc::Global;
use tick_units::Order;
use trial_records::{Block, answers_of, push_tick};

/// What a record told, tick by tick, and what befell by then.
#[derive(Drop)]
pub struct Played {
    pub told: Vec<Told>,
    pub moments: Vec<Moment>,
    /// In how many ticks Keep's turn failed.
    pub failed: u32,
}

/// What the system tells. A tick whose order isn't given has the canonical or the reversed one, and the calls of the
/// disk of these numbers fail.
pub fn by_system(
    alloc: Global,
    site: Site,
    blocks: &[Block],
    reversed: bool,
    fails: Vec<u64>,
) -> Result<Played>
    requires { IsValid site }
{
    let panels = site.panels;
    let mut own = opened(alloc, site, fails)?;
    let mut played = Played {
        told: Vec::new(alloc),
        moments: Vec::new(alloc),
        failed: 0,
    };
    for block in blocks {
        let order = order_in(alloc, panels, block, reversed)?;
        let store = run_events(&mut own, panels, &block.events, &order)?;
        played.keep(block, &order, store, Told::by_system(alloc, &own, panels)?)?;
    }
    Ok(played)
}

impl Played {
    // Keeps one tick more: its order, how Keep's turn ended and what was told.
    fn keep(&mut self, block: &Block, order: &Order, store: Store, told: Told) -> Result<()> {
        let failed = matches!(store, Store::Failed);
        push_tick(&mut self.moments, &block.events, order, failed)?;
        self.told.push(told)?;
        self.failed = self.failed.saturating_add(failed as u32);
        Ok(())
    }
}

// The order of a tick.
fn order_in(alloc: Global, panels: u8, block: &Block, reversed: bool) -> Result<Order>
    requires { IsPanelCount panels }
    ensures { IfOk result (IsOrder panels) }
{
    match &block.order {
        Some(order) => tested_order(alloc, panels, order),
        None => order_of(alloc, panels, reversed),
    }
}

/// What the plain program tells of these moments, tick by tick.
pub fn by_rules(alloc: Global, site: &Site, moments: &[Moment]) -> Result<Vec<Told>>
    requires { IsValid site.now }
{
    match timeline(alloc, site, &Retained::empty(), moments) {
        Ok(run) => Ok(all_told(alloc, &run)?),
        Err(_) => bail!("no memory"),
    }
}

// What a timeline tells, also of the ticks in which it tells nothing new.
fn all_told(alloc: Global, run: &Timeline) -> Result<Vec<Told>> {
    let mut told = Vec::new(alloc);
    let mut faces = run.opened.as_slice();
    let mut place: usize = 0;
    for tick in 1..=run.last.0 {
        match run.steps.as_slice().get(place) {
            Some(step) if step.tick.0 == tick => {
                faces = step.faces.as_slice();
                told.push(told_in(alloc, step)?)?;
                place = place.saturating_add(1);
            }
            _ => told.push(Told::by_faces(alloc, faces, String::new(alloc))?)?,
        }
    }
    Ok(told)
}

// What a step of a timeline tells.
fn told_in(alloc: Global, step: &Step) -> Result<Told> {
    let answers = answers_of(alloc, &step.answers)?;
    Ok(Told::by_faces(alloc, step.faces.as_slice(), answers)?)
}
