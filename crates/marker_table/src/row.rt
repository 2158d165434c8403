ghost use Rattle.std.specs.Prelude.{◌≡◌, ◌<◌, All, IfOk, IfSome, length, nat_le, slice_index_or, sum_by};
ghost use Rattle.site_types.specs.Valid.{IsTerm, IsValid};
ghost use Rattle.marker_table.specs.Table.{AddsInputAt, CountsMore, IsRowOf, count_in, needed_of};

use crate::input::Input;
use crate::mask::Mask;
use crate::readings::Readings;
use site_types::{Combine, Marker, Site};
use std::alloc::Global;
use tick_units::{Items, NoMemory};

/// What a marker looks at, and how much of that has to be true.
#[derive(Drop)]
pub(crate) struct Row {
    needed: usize,
    // A term that stands twice is in two of the masks.
    masks: Items<Mask>,
}

impl Row {
    // The row of a marker of the site.
    pub(crate) fn of(alloc: Global, site: &Site, marker: &Marker) -> Result<Row, NoMemory>
        requires valid { IsValid site.now }
        requires terms { All (IsTerm site.now) marker.now.terms }
        ensures { IfOk result (IsRowOf site.now marker.now) }
    {
        let mut masks = Vec::new(alloc);
        for term in marker.terms.as_slice() {
            add(&mut masks, Input::of(site, *term))?;
        }
        Ok(Row {
            needed: needed_for(marker.combine, marker.terms.len()),
            masks: Items::from_vec(masks),
        })
    }

    // Whether enough of what it looks at is true.
    pub(crate) fn is_met(&self, readings: &Readings) -> bool
        ensures { result ≡ nat_le self.now.needed (sum_by (count_in readings.now) self.now.masks) }
    {
        let mut left = self.needed;
        for mask in self.masks.as_slice() {
            let count = mask.count(readings) as usize;
            if count >= left {
                return true;
            }
            left -= count;
        }
        left == 0
    }
}

// How many of so many terms have to hold.
fn needed_for(combine: Combine, terms: usize) -> usize
    ensures { result ≡ needed_of combine terms }
{
    match combine {
        Combine::All => terms,
        Combine::Any => 1,
        Combine::AtLeast(needed) => needed as usize,
    }
}

// Adds what a term looks at.
fn add(masks: &mut Vec<Mask>, input: Input) -> Result<(), NoMemory>
    ensures { IfOk result (λ _. CountsMore input masks.old.items masks.new.items) }
{
    match joined(masks.as_slice(), input) {
        Some((place, mask)) => masks[place] = mask,
        None => masks.push(Mask::of(input))?,
    }
    Ok(())
}

// The first mask that takes an input, and what it is then.
fn joined(masks: &[Mask], input: Input) -> Option<(usize, Mask)>
    ensures { IfSome result (AddsInputAt input masks.now) }
{
    for (place, mask) in masks.iter().enumerate() {
        if let Some(more) = mask.with(input) {
            return Some((place, more));
        }
    }
    None
}
