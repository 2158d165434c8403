ghost use Rattle.std.specs.Prelude.{◌≡◌, None, Some, IfOk, option_map};
ghost use Rattle.serde_json.specs.View.{items_view, view};
ghost use Rattle.site_types.specs.Valid.{IsValid};
ghost use Rattle.desk_bodies.specs.Bodies.{few_places, list_under, place_said, places_of, point_place, points_in};

use crate::refusal::BodyRefusal;
use serde_json::Value;
use site_types::{Site, Thing};
use std::alloc::Global;

const MOST_POINTS: usize = 384;

// The places of the points whose names stand under `points`.
#[tactic(auto, using(crate::proofs::PlaceLists::points_none, crate::proofs::PlaceLists::points_some))]
pub(crate) fn points(alloc: Global, site: &Site, value: &Value) -> Result<Vec<u16>, BodyRefusal>
    requires { IsValid site.now }
    ensures ok { IfOk result (λ places. points_in site.now (view value.now) ≡ Some places.items) }
    ensures bad { result ≡ Err BodyRefusal.BadForm → points_in site.now (view value.now) ≡ None }
{
    match list(value) {
        Some(names) => few(alloc, site, names.as_slice()),
        None => Err(BodyRefusal::BadForm),
    }
}

// The list under `points`.
fn list(value: &Value) -> Option<&Vec<Value>>
    ensures { option_map (λ names. items_view names.now.items) result
        ≡ list_under (view value.now) }
{
    value.get("points").and_then(Value::as_array)
}

// The places of the points with these names, where they aren't too many.
#[tactic(auto, using(crate::proofs::PlaceLists::items_count))]
fn few(alloc: Global, site: &Site, names: &[Value]) -> Result<Vec<u16>, BodyRefusal>
    requires { IsValid site.now }
    ensures ok { IfOk result
        (λ places. few_places site.now (items_view names.now) ≡ Some places.items) }
    ensures bad { result ≡ Err BodyRefusal.BadForm
        → few_places site.now (items_view names.now) ≡ None }
{
    if names.len() > MOST_POINTS {
        return Err(BodyRefusal::BadForm);
    }
    places(alloc, site, names)
}

fn places(alloc: Global, site: &Site, names: &[Value]) -> Result<Vec<u16>, BodyRefusal>
    requires { IsValid site.now }
    ensures ok { IfOk result
        (λ places. places_of site.now (items_view names.now) ≡ Some places.items) }
    ensures bad { result ≡ Err BodyRefusal.BadForm
        → places_of site.now (items_view names.now) ≡ None }
{
    let Ok(mut places) = Vec::with_capacity(alloc, names.len()) else {
        return Err(BodyRefusal::NoMemory);
    };
    for name in names {
        let Some(place) = place(site, name) else {
            return Err(BodyRefusal::BadForm);
        };
        if places.push(place).is_err() {
            return Err(BodyRefusal::NoMemory);
        }
    }
    Ok(places)
}

// The place of the point that a value names.
fn place(site: &Site, name: &Value) -> Option<u16>
    requires { IsValid site.now }
    ensures { result ≡ place_said site.now (view name.now) }
{
    match name.as_str() {
        Some(text) => place_named(site, text.as_bytes()),
        None => None,
    }
}

fn place_named(site: &Site, name: &[u8]) -> Option<u16>
    requires { IsValid site.now }
    ensures { result ≡ point_place site.now name.now }
{
    match site.find(name) {
        Some(Thing::Point(place)) => Some(place),
        _ => None,
    }
}
