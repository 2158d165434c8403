//! How many markers the turns of a tick evaluate, by the facts of the rules.

ghost use Rattle.site_types.specs.Valid.{IsValid};

use anyhow::{Result, bail};
use marker_table::Facts;
use plain_history::{Moment, Settings};
use plain_panel::facts_after;
use site_types::{Retained, Site, Term, has_bit_8, has_bit_32};
use std::alloc::Global;
use std::mem;
use tick_units::Task;
use trial_cases::Lines;

/// The steps of each tick: at each turn of Effect the markers that depend on a fact that changed since the panel's turn
/// before, and those that depend on a changed one of what counts by hand. At its first turn no fact was true before. No
/// operation may be among the moments.
pub(crate) fn steps_told(alloc: Global, site: &Site, moments: &[Moment]) -> Result<String>
    requires { IsValid site.now }
{
    let mut lines = Lines::new(alloc);
    let mut latest = [Facts::default(); 8];
    let mut tick = 0;
    let mut steps = 0;
    for place in 0..moments.len() {
        match moments[place] {
            Moment::Began => {
                tell(&mut lines, tick, steps);
                tick = number_after(tick);
                steps = 0;
            }
            Moment::Turned { panel, task } => {
                if let Task::Effect = task {
                    let facts = facts_before(alloc, site, &moments[..place], panel)?;
                    let Some(last) = latest.get_mut((panel as usize).saturating_sub(1)) else {
                        bail!("no such panel");
                    };
                    let before = mem::replace(last, facts);
                    steps = evaluated(site, &before, &facts).saturating_add(steps);
                }
            }
            Moment::Happened(_) => {}
            Moment::Kept { .. } => {}
        }
    }
    tell(&mut lines, tick, steps);
    lines.done()
}

fn number_after(tick: u64) -> u64 {
    tick.saturating_add(1)
}

fn tell(lines: &mut Lines, tick: u64, steps: u64) {
    if tick > 0 {
        lines.count("tick ", tick);
        lines.count(" steps ", steps);
        lines.say("\n");
    }
}

// The facts of a turn of Effect behind some moments.
fn facts_before(alloc: Global, site: &Site, moments: &[Moment], panel: u8) -> Result<Facts>
    requires { IsValid site.now }
{
    if panel < 1 || panel > site.panels {
        bail!("no such panel");
    }
    let kept = Retained::empty();
    let settings = Settings {
        site,
        kept: &kept,
        done: &[],
    };
    match facts_after(alloc, &settings, moments, panel) {
        Ok(facts) => Ok(facts),
        Err(_) => bail!("no memory"),
    }
}

// How many markers are evaluated where the facts change so: over the facts, and over what counts by hand.
fn evaluated(site: &Site, before: &Facts, after: &Facts) -> u64
    requires { IsValid site.now }
{
    let by_fact = dependent(site, before, after);
    by_fact.saturating_add(dependent(site, &by_hand(before), &by_hand(after)))
}

// What counts by hand.
fn by_hand(facts: &Facts) -> Facts {
    Facts {
        zones: facts.manual,
        manual: facts.manual,
        faults: 0,
    }
}

// How many markers depend on a fact that changed, directly or through markers.
fn dependent(site: &Site, before: &Facts, after: &Facts) -> u64
    requires { IsValid site.now }
{
    let mut marked = [false; 256];
    for _round in 0..site.markers.len() {
        for (place, marker) in site.markers.as_slice().iter().enumerate() {
            let changed = marker
                .terms
                .as_slice()
                .iter()
                .any(|term| has_changed(site, before, after, &marked, *term));
            if changed {
                marked[place] = true;
            }
        }
    }
    marked.iter().filter(|one| **one).count() as u64
}

fn has_changed(site: &Site, before: &Facts, after: &Facts, marked: &[bool; 256], term: Term) -> bool
    requires { IsValid site.now }
{
    match term {
        Term::Zone(zone) => {
            has_zone(site, &before.zones, zone) != has_zone(site, &after.zones, zone)
        }
        Term::Manual(zone) => {
            has_zone(site, &before.manual, zone) != has_zone(site, &after.manual, zone)
        }
        Term::Fault(panel) => has_fault(before.faults, panel) != has_fault(after.faults, panel),
        Term::Marker(marker) => matches!(marked.get(marker as usize), Some(true)),
    }
}

fn has_zone(site: &Site, masks: &[u32; 8], zone: u16) -> bool
    requires { IsValid site.now }
{
    match site.zones.get(zone as usize) {
        None => false,
        Some(zone) => has_bit_32(masks[zone.panel as usize - 1], zone.number - 1),
    }
}

fn has_fault(faults: u8, panel: u8) -> bool {
    let bit = panel.saturating_sub(1);
    bit < 8 && has_bit_8(faults, bit)
}
