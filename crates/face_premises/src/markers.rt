//! Which outputs zones alone ask for, no panel telling a fault.

use anyhow::Result;
use site_types::{Combine, Marker, Site, Term};
use std::alloc::Global;

/// Whether a flag stands in a list.
pub(crate) fn is_set(flags: &[bool], place: usize) -> bool {
    match flags.get(place) {
        Some(flag) => *flag,
        None => false,
    }
}

/// Whether a marker is true where these zones are released and these are in alarm by hand.
pub(crate) fn asks(
    alloc: Global,
    site: &Site,
    marker: usize,
    released: &[bool],
    by_hand: &[bool],
) -> Result<bool> {
    let mut values: Vec<bool> = Vec::new(alloc);
    for _round in 0..=site.markers.len() {
        let mut next = Vec::new(alloc);
        for marker in site.markers.as_slice() {
            next.push(is_met(marker, released, by_hand, &values))?;
        }
        values = next;
    }
    Ok(is_set(&values, marker))
}

fn is_met(marker: &Marker, released: &[bool], by_hand: &[bool], values: &[bool]) -> bool {
    let mut held: u64 = 0;
    for term in marker.terms.as_slice() {
        let holds = match *term {
            Term::Zone(zone) => is_set(released, zone as usize),
            Term::Manual(zone) => is_set(by_hand, zone as usize),
            Term::Fault(_) => false,
            Term::Marker(other) => is_set(values, other as usize),
        };
        held = held.saturating_add(holds as u64);
    }
    match marker.combine {
        Combine::All => held == marker.terms.len() as u64,
        Combine::Any => held > 0,
        Combine::AtLeast(needed) => held >= needed as u64,
    }
}
