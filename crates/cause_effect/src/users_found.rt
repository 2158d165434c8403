//! How the users of facts and markers are found: in one pass over all terms.

ghost use Rattle.std.specs.Prelude.{◌≡◌, ◌||◌, ◌&&◌, ℕ, All, IfOk, length};
ghost use Rattle.std.specs.List.{list_any};
ghost use Rattle.site_types.specs.Valid.{IsTerm, IsValid};
ghost use Rattle.marker_table.specs.declared.input.Input.{Input as InputOf};
ghost use Rattle.marker_table.specs.Equations.{values_of};
ghost use Rattle.cause_effect.specs.Orders.{IsOrder};
ghost use Rattle.cause_effect.specs.Users.{AreUsersOf, HasNoUsers, is_user, joins, looks_at, place_of as place_for};
ghost use Rattle.cause_effect.specs.Users.{places, uses};

use crate::users::{FAULTS_FROM, MANUAL_FROM, MARKERS_FROM, PLACES, Users};
use marker_table::{Input, Values};
use site_types::{Site, Term};
use std::alloc::Global;
use tick_units::{Items, NoMemory};

impl Users {
    // The markers that depend on each fact and each marker of a site. From the last of the order on, each marker is put
    // to its terms with all that depend on it, which by then are known.
    pub(crate) fn of(alloc: Global, site: &Site, order: &[u8]) -> Result<Users, NoMemory>
        requires valid { IsValid site.now }
        requires order { IsOrder site.now order.now }
        ensures { IfOk result (λ users. AreUsersOf site.now order.now users.sets) }
    {
        let mut sets = no_users(alloc)?;
        let mut position = order.len();
        while position > 0 {
            position -= 1;
            add_marker(site, order[position], position as u8, &mut sets);
        }
        Ok(Users {
            sets: Items::from_vec(sets),
        })
    }
}

// Adds the marker at a place in the order, and those that depend on it, to the users of each of its terms.
fn add_marker(site: &Site, marker: u8, position: u8, sets: &mut [Values])
    requires valid { IsValid site.now }
    requires size { length sets.old ≡ places }
    ensures size { length sets.new ≡ places }
    ensures users { (place k : ℕ) → is_user sets.new place k
        ≡ (is_user sets.old place k
        || (joins sets.old marker position k && uses site.now marker place)) }
{
    let mut own = sets[MARKERS_FROM + marker as usize];
    own.set(position, true);
    if let Some(marker) = site.markers.get(marker as usize) {
        add_terms(site, marker.terms.as_slice(), &own, sets);
    }
}

// No marker for each place.
fn no_users(alloc: Global) -> Result<Vec<Values>, NoMemory>
    ensures { IfOk result (λ sets. HasNoUsers sets.items) }
{
    let mut sets = Vec::with_capacity(alloc, PLACES)?;
    for _place in 0..PLACES {
        sets.push(Values::none())?;
    }
    Ok(sets)
}

// Adds markers to the users of each of some terms.
fn add_terms(site: &Site, terms: &[Term], own: &Values, sets: &mut [Values])
    requires valid { IsValid site.now }
    requires terms { All (IsTerm site.now) terms.now }
    requires size { length sets.old ≡ places }
    ensures size { length sets.new ≡ places }
    ensures users { (place m : ℕ) → is_user sets.new place m
        ≡ (is_user sets.old place m || (values_of own.now m && list_any (looks_at site.now place)
        terms.now)) }
{
    for term in terms {
        sets[place_of(Input::of(site, *term))].join(own);
    }
}

// The place of what a term looks at.
fn place_of(input: Input) -> usize
    ensures { result ≡ place_for input }
{
    match input {
        Input::Zone(place) => place as usize,
        Input::Manual(place) => MANUAL_FROM + place as usize,
        Input::Marker(place) => MARKERS_FROM + place as usize,
        Input::Fault(place) => FAULTS_FROM + place as usize,
    }
}
