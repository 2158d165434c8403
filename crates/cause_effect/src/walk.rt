//! The walk along markers from which one comes to a cycle.

ghost use Rattle.std.specs.Prelude.{◌≡◌, ◌<◌, ◌≤◌, ℕ, IfOk, drop, length, slice_index};
ghost use Rattle.site_types.specs.Valid.{IsValid};
ghost use Rattle.cause_effect.specs.Cycles.{IsCycle, IsFromLeast, IsLeast, LeadsOn};
ghost use Rattle.cause_effect.specs.Placed.{IsLeft, LeavesCycles, PlaceIs};

use crate::terms::least_left;
use site_types::Site;
use std::alloc::Global;
use tick_units::{Items, NoMemory};

// The cycle in which the walk ends that begins at a marker.
pub(crate) fn cycle_from(
    alloc: Global,
    site: &Site,
    placed: &[bool; 256],
    first: u8,
) -> Result<Items<u16>, NoMemory>
    requires valid { IsValid site.now }
    requires left { LeavesCycles site.now placed.now }
    requires first { IsLeast (IsLeft site.now placed.now) first }
    ensures { IfOk result (λ markers. IsCycle site.now markers) }
{
    let mut path = Vec::with_capacity(alloc, site.markers.len())?;
    let mut at = first as u16;
    let mut met = None;
    while met.is_none() {
        path.push(at)?;
        at = next_of(site, placed, at);
        met = place_of(path.as_slice(), at);
    }
    match met {
        Some(start) => from_least(alloc, rest_from(path.as_slice(), start)),
        None => unreachable!(),
    }
}

// The least term of a marker from which one comes to a cycle.
fn next_of(site: &Site, placed: &[bool; 256], marker: u16) -> u16
    requires valid { IsValid site.now }
    requires left { LeavesCycles site.now placed.now }
    requires marker { IsLeft site.now placed.now marker }
    ensures least { IsLeast (LeadsOn site.now marker) result }
    ensures left { IsLeft site.now placed.now result }
{
    let terms = &site.markers.as_slice()[marker as usize].terms;
    match least_left(terms.as_slice(), placed) {
        Some(next) => next,
        None => unreachable!(),
    }
}

// Where a marker stands in a list.
fn place_of(path: &[u16], marker: u16) -> Option<usize>
    ensures { PlaceIs path.now marker result }
{
    for (place, met) in path.iter().enumerate() {
        if *met == marker {
            return Some(place);
        }
    }
    None
}

// What stands in a list from a place on.
fn rest_from(path: &[u16], start: usize) -> &[u16]
    requires { start ≤ length path.now }
    ensures { result.now ≡ drop start path.now }
{
    &path[start..]
}

// The markers of a round from the least one onwards.
fn from_least(alloc: Global, round: &[u16]) -> Result<Items<u16>, NoMemory>
    requires { 0 < length round.now }
    ensures { IfOk result (λ markers. IsFromLeast round.now markers) }
{
    let place = place_of_least(round);
    let mut markers = Vec::with_capacity(alloc, round.len())?;
    markers.extend_from_slice(&round[place..])?;
    markers.extend_from_slice(&round[..place])?;
    Ok(Items::from_vec(markers))
}

// Where the least marker of a round stands.
fn place_of_least(round: &[u16]) -> usize
    requires { 0 < length round.now }
    ensures within { result < length round.now }
    ensures least { (k : ℕ) → k < length round.now
        → slice_index round.now result ≤ slice_index round.now k }
{
    let mut least = 0;
    for place in 1..round.len() {
        if round[place] < round[least] {
            least = place;
        }
    }
    least
}
