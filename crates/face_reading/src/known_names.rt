//! Names of things and things with names, found by a guess where it is right.

ghost use Rattle.std.specs.Prelude.{◌≡◌, Some, IfSome, option_map};
ghost use Rattle.site_types.specs.Valid.{IsValid};
ghost use Rattle.site_types.specs.Things.{thing_named};
ghost use Rattle.face_text.specs.Slots.{name_in, output_name as name_of_output, point_name as name_of_point};
ghost use Rattle.face_text.specs.Slots.{zone_name as name_of_zone};

use crate::guesses::Guesses;
use face_text::{Group, name_of};
use line_fields::is_word;
use site_types::{Label, Site, Thing};

/// How the page of a panel names the thing of a group with a number, as `name_of` answers it.
pub fn known_name(
    site: &Site,
    guesses: &Guesses,
    panel: u8,
    group: Group,
    number: u8,
) -> Option<Label>
    requires { IsValid site.now }
    ensures { option_map (λ label. label.bytes) result ≡ name_in site.now panel group number }
{
    match guessed(site, guesses, panel, group, number) {
        Some(name) => Some(name),
        None => name_of(site, panel, group, number),
    }
}

fn guessed(site: &Site, guesses: &Guesses, panel: u8, group: Group, number: u8) -> Option<Label>
    requires { IsValid site.now }
    ensures { IfSome result (λ name. name_in site.now panel group number ≡ Some name.bytes) }
{
    match group {
        Group::Zones(other) | Group::Firsts(other) => guessed_zone(site, guesses, other, number),
        Group::Missing(line) | Group::PointsOff(line) => {
            guessed_point(site, guesses, panel, line, number)
        }
        Group::Unconfirmed | Group::Outputs | Group::Confirmed | Group::OutputsOff => {
            guessed_output(site, guesses, panel, number)
        }
        Group::ZonesOff | Group::Tests => guessed_zone(site, guesses, panel, number),
        _ => None,
    }
}

fn guessed_zone(site: &Site, guesses: &Guesses, panel: u8, number: u8) -> Option<Label>
    requires { IsValid site.now }
    ensures { IfSome result (λ name. name_of_zone site.now panel number ≡ Some name.bytes) }
{
    let zone = site.zones.as_slice().get(guesses.zone(panel, number))?;
    let is_so = (zone.panel == panel) & (zone.number == number);
    is_so.then_some(zone.name)
}

fn guessed_point(site: &Site, guesses: &Guesses, panel: u8, line: u8, address: u8) -> Option<Label>
    requires { IsValid site.now }
    ensures { IfSome result (λ name. name_of_point site.now panel line address ≡ Some name.bytes) }
{
    let point = site
        .points
        .as_slice()
        .get(guesses.point(panel, line, address))?;
    let is_so = (point.panel == panel) & (point.line == line) & (point.address == address);
    is_so.then_some(point.name)
}

fn guessed_output(site: &Site, guesses: &Guesses, panel: u8, number: u8) -> Option<Label>
    requires { IsValid site.now }
    ensures { IfSome result (λ name. name_of_output site.now panel number ≡ Some name.bytes) }
{
    let output = site.outputs.as_slice().get(guesses.output(panel, number))?;
    let is_so = (output.panel == panel) & (output.number == number);
    is_so.then_some(output.name)
}

/// The point, zone, output or marker with a name, as `Site::find` answers it.
pub fn known_thing(site: &Site, guesses: &Guesses, name: &[u8]) -> Option<Thing>
    requires { IsValid site.now }
    ensures { result ≡ thing_named site.now name.now }
{
    match guessed_thing(site, guesses, name) {
        Some(thing) => Some(thing),
        None => site.find(name),
    }
}

fn guessed_thing(site: &Site, guesses: &Guesses, name: &[u8]) -> Option<Thing>
    requires { IsValid site.now }
    ensures { IfSome result (λ thing. thing_named site.now name.now ≡ Some thing) }
{
    let named = site.names.as_slice().get(guesses.name(name))?;
    is_word(named.name.as_str().as_bytes(), name).then_some(named.thing)
}
