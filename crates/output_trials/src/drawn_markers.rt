//! Drawn tables of markers of all kinds, solved from scratch and from change to change, against a plain
//! program that goes over all markers again and again, from none true, until as many rounds are made as there
//! are markers.

ghost use Rattle.std.specs.Prelude.{◌≡◌, ◌<◌};

use crate::marker_texts::drawn_site;
use anyhow::{Result, bail};
use cause_effect::{Facts, Plan, Steps, Values, compile};
use rand_pcg::Pcg32;
use site_config::read_site;
use site_types::{Combine, Marker, Site, Term};
use std::alloc::{AllocError, Global};
use std::marker::Brand;
use std::sync::ledger::{Blank, Ledger};
use trial_cases::{Sample, below, otherwise};

const CHANGES: u64 = 40;
/// How often a marker of each kind is to be true, and one to become true or false.
const OFTEN: u32 = 1000;
/// The stream of numbers that is drawn from.
const STREAM: u64 = 54;

/// How often a marker of each kind was true, and how often one became true or false.
#[derive(Clone, Copy, Default)]
struct Tally {
    all: u32,
    any: u32,
    at_least: u32,
    rose: u32,
    fell: u32,
}

impl Tally {
    fn add(&mut self, combine: Combine, before: bool, after: bool) {
        let kind = match combine {
            Combine::All => &mut self.all,
            Combine::Any => &mut self.any,
            Combine::AtLeast(_) => &mut self.at_least,
        };
        *kind = kind.saturating_add(after as u32);
        self.rose = self.rose.saturating_add((after && !before) as u32);
        self.fell = self.fell.saturating_add((before && !after) as u32);
    }

    fn least(&self) -> u32 {
        self.all
            .min(self.any)
            .min(self.at_least)
            .min(self.rose)
            .min(self.fell)
    }
}

// ---- drawn facts

// The bits of zones and call points that some zone of the site has, and some that none has.
fn drawn_bit(draws: &mut Pcg32) -> u32 {
    match below(draws, 5) {
        0 => 1 << 31,
        1 => 1 << 6,
        2 => 1 << 1,
        _ => 1,
    }
}

// The facts with one bit turned.
fn turned(facts: &Facts, draws: &mut Pcg32) -> Facts {
    let mut after = *facts;
    let panel = below(draws, 4) as usize;
    match below(draws, 5) {
        0 => after.manual[panel] ^= drawn_bit(draws),
        1 => after.faults ^= 1 << below(draws, 4),
        _ => after.zones[panel] ^= drawn_bit(draws),
    }
    after
}

// The facts after a change: of none, of a few, or of all.
fn drawn_change(facts: &Facts, draws: &mut Pcg32) -> Facts {
    if below(draws, 20) == 0 {
        return Facts::default();
    }
    let mut after = *facts;
    for _turn in 0..below(draws, 5) {
        after = turned(&after, draws);
    }
    after
}

// ---- the plain program

fn has(mask: u32, number: u8) -> bool {
    (1..=32).contains(&number) && (mask >> (number - 1)) & 1 == 1
}

fn has_zone(site: &Site, masks: &[u32; 8], place: u16) -> bool {
    match site.zones.get(place as usize) {
        Some(zone) => (1..=8).contains(&zone.panel)
            && has(masks[zone.panel as usize - 1], zone.number),
        None => false,
    }
}

fn holds(site: &Site, facts: &Facts, values: &[bool], term: Term) -> bool {
    match term {
        Term::Zone(place) => has_zone(site, &facts.zones, place),
        Term::Manual(place) => has_zone(site, &facts.manual, place),
        Term::Fault(panel) => has(facts.faults as u32, panel),
        Term::Marker(place) => values.get(place as usize) == Some(&true),
    }
}

fn is_met(site: &Site, facts: &Facts, values: &[bool], marker: &Marker) -> bool {
    let mut met = 0_usize;
    for term in marker.terms.as_slice() {
        met = met.saturating_add(holds(site, facts, values, *term) as usize);
    }
    match marker.combine {
        Combine::All => met == marker.terms.len(),
        Combine::Any => met > 0,
        Combine::AtLeast(needed) => met >= needed as usize,
    }
}

fn plain_solution(alloc: Global, site: &Site, facts: &Facts) -> Result<Vec<bool>, AllocError> {
    let mut values = Vec::new(alloc);
    for _round in 0..=site.markers.len() {
        let mut next = Vec::new(alloc);
        for marker in site.markers.as_slice() {
            next.push(is_met(site, facts, &values, marker))?;
        }
        values = next;
    }
    Ok(values)
}

// ---- both

// Goes on from the solution over the facts before a change, with a counter that is let go.
fn go_on<L: Ledger>(plan: &Plan, before: &Facts, after: &Facts, values: &mut Values, blank: Blank)
    requires name { blank.name ≡ L.name }
    requires parts { blank.parts ≡ L.parts }
    requires some { 0 < blank.parts }
{
    let mut steps: Steps<L> = Steps::new(blank);
    plan.solve_changed(before, after, values, &mut steps);
}

fn change(plan: &Plan, before: &Facts, after: &Facts, values: &mut Values) {
    go_on::<Brand>(plan, before, after, values, Blank::new(1));
}

fn is_true(values: &Values, place: usize) -> bool {
    values.is_true(place.min(u16::MAX as usize) as u16)
}

fn is_same(values: &Values, plain: &[bool]) -> bool {
    for (place, value) in plain.iter().enumerate() {
        if is_true(values, place) != *value {
            return false;
        }
    }
    true
}

fn tell(site: &Site, before: &Values, after: &Values, tally: &mut Tally) {
    for (place, marker) in site.markers.as_slice().iter().enumerate() {
        tally.add(
            marker.combine,
            is_true(before, place),
            is_true(after, place),
        );
    }
}

// Whether a drawn table is solved as by the plain program, from scratch and from change to change.
fn try_table(alloc: Global, seed: u64, tally: &mut Tally) -> Result<bool> {
    let mut draws = Pcg32::new(seed, STREAM);
    let text = drawn_site(alloc, &mut draws)?;
    let Ok(site) = read_site(alloc, text.as_bytes()) else {
        bail!("a refused site");
    };
    let Ok(plan) = compile(alloc, &site) else {
        bail!("no plan");
    };
    let mut facts = Facts::default();
    let mut values = Values::none();
    plan.solve(&facts, &mut values);
    for _change in 0..CHANGES {
        let after = drawn_change(&facts, &mut draws);
        let before = values;
        change(&plan, &facts, &after, &mut values);
        let mut afresh = Values::none();
        plan.solve(&after, &mut afresh);
        let plain = plain_solution(alloc, &site, &after)?;
        if !is_same(&values, &plain) || !is_same(&afresh, &plain) {
            return Ok(false);
        }
        tell(&site, &before, &values, tally);
        facts = after;
    }
    Ok(true)
}

/// Whether drawn tables of markers are solved as by the plain program.
pub(crate) fn try_markers(alloc: Global, line: &str) -> Result<String> {
    let sample = Sample::read(line)?;
    let mut tally = Tally::default();
    for seed in sample.seeds() {
        if !try_table(alloc, seed, &mut tally)? {
            return otherwise(alloc, "plain program", seed);
        }
    }
    let words = if tally.least() >= OFTEN {
        " tables: all alike, and each kind of marker was true, and markers rose and fell, 1000 times or more"
    } else {
        " tables: all alike, and not each kind of marker was true, and markers rose and fell, 1000 times or more"
    };
    sample.all_alike(alloc, words)
}
