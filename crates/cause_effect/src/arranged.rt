//! The order in which markers are solved: each after its terms.

ghost use Rattle.std.specs.Prelude.{◌≡◌, IfOk};
ghost use Rattle.site_types.specs.Valid.{IsValid};
ghost use Rattle.cause_effect.specs.Placed.{Arranges, FirstLeftIs, NextIs};

use crate::terms::are_placed;
use site_types::Site;
use std::alloc::Global;
use tick_units::{Items, NoMemory};

/// The markers that could be placed, in an order in which each comes after its terms.
#[derive(Drop)]
pub(crate) struct Arranged {
    pub(crate) order: Items<u8>,
    pub(crate) placed: [bool; 256],
}

impl Arranged {
    // Places each marker as soon as its terms are placed, until none is left that can be.
    pub(crate) fn of(alloc: Global, site: &Site) -> Result<Arranged, NoMemory>
        requires { IsValid site.now }
        ensures { IfOk result (λ arranged. Arranges site.now arranged) }
    {
        let mut order = Vec::with_capacity(alloc, site.markers.len())?;
        let mut placed = [false; 256];
        while let Some(place) = next_ready(site, &placed) {
            order.push(place)?;
            placed[place as usize] = true;
        }
        Ok(Arranged {
            order: Items::from_vec(order),
            placed,
        })
    }

    // The least marker that could not be placed.
    pub(crate) fn first_left(&self, site: &Site) -> Option<u8>
        requires { IsValid site.now }
        ensures { FirstLeftIs site.now self.now.placed result }
    {
        for place in 0..site.markers.len() {
            if !self.placed[place] {
                return Some(place as u8);
            }
        }
        None
    }
}

// The least marker that isn't placed and whose terms are.
fn next_ready(site: &Site, placed: &[bool; 256]) -> Option<u8>
    requires { IsValid site.now }
    ensures { NextIs site.now placed.now result }
{
    for (place, marker) in site.markers.as_slice().iter().enumerate() {
        if !placed[place] && are_placed(marker.terms.as_slice(), placed) {
            return Some(place as u8);
        }
    }
    None
}
