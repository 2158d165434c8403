//! Reading which thing a line tells of. Whether it is of the line's panel, the line of the thing tells.

ghost use Rattle.std.specs.Prelude.{◌≡◌};
ghost use Rattle.site_types.specs.Valid.{IsValid};
ghost use Rattle.face_reading.specs.Spelled.{disabled_spelled, fault_spelled, number_spelled};
ghost use Rattle.face_reading.specs.Spelled.{output_named as output_of_name, point_named as point_of_name, supply_of};
ghost use Rattle.face_reading.specs.Spelled.{thing_spelled, truth_place as place_of_truth, zone_named as zone_of_name};

use crate::guesses::Guesses;
use crate::known_names::known_thing;
use crate::numbered::Numbered;
use face_text::{Group, kind_word};
use line_fields::{is_word, read_octet};
use site_types::{Output, Point, Site, Thing, Zone};

/// The thing that the words behind a panel's number spell.
pub fn read_thing(
    site: &Site,
    guesses: &Guesses,
    word: &[u8],
    first: &[u8],
    second: &[u8],
) -> Option<Numbered>
    requires { IsValid site.now }
    ensures { result ≡ thing_spelled site.now word.now first.now second.now }
{
    if is_word(word, b"zone") {
        let zone = zone_named(site, guesses, first)?;
        Some(numbered(Group::Zones(zone.panel), zone.number))
    } else if is_word(word, b"first") {
        let zone = zone_named(site, guesses, first)?;
        Some(numbered(Group::Firsts(zone.panel), zone.number))
    } else if is_word(word, b"fault") {
        read_fault(site, guesses, first, second)
    } else if is_word(word, b"output") {
        let output = output_named(site, guesses, first)?;
        Some(numbered(Group::Outputs, output.number))
    } else if is_word(word, b"confirmed") {
        let output = output_named(site, guesses, first)?;
        Some(numbered(Group::Confirmed, output.number))
    } else if is_word(word, b"disabled") {
        read_disabled(site, guesses, first, second)
    } else if is_word(word, b"test") {
        let zone = zone_named(site, guesses, first)?;
        Some(numbered(Group::Tests, zone.number))
    } else {
        None
    }
}

/// The place of the field that tells whether a thing is on.
pub fn truth_place(group: Group) -> usize
    ensures { result ≡ place_of_truth group }
{
    if kind_word(group).is_empty() { 3 } else { 4 }
}

// The thing of a fault. A supply stands in the kind's place.
fn read_fault(site: &Site, guesses: &Guesses, kind: &[u8], name: &[u8]) -> Option<Numbered>
    requires { IsValid site.now }
    ensures { result ≡ fault_spelled site.now kind.now name.now }
{
    if is_word(kind, b"missing") {
        let point = point_named(site, guesses, name)?;
        Some(numbered(Group::Missing(point.line), point.address))
    } else if is_word(kind, b"broken") {
        read_numbered(Group::Broken, name)
    } else if is_word(kind, b"shorted") {
        read_numbered(Group::Shorted, name)
    } else if is_word(kind, b"silent") {
        read_numbered(Group::Silent, name)
    } else if is_word(kind, b"link") {
        read_numbered(Group::Links, name)
    } else if is_word(kind, b"unconfirmed") {
        let output = output_named(site, guesses, name)?;
        Some(numbered(Group::Unconfirmed, output.number))
    } else {
        let supply = supply_number(kind)?;
        Some(numbered(Group::Supplies, supply))
    }
}

fn read_disabled(site: &Site, guesses: &Guesses, kind: &[u8], name: &[u8]) -> Option<Numbered>
    requires { IsValid site.now }
    ensures { result ≡ disabled_spelled site.now kind.now name.now }
{
    if is_word(kind, b"point") {
        let point = point_named(site, guesses, name)?;
        Some(numbered(Group::PointsOff(point.line), point.address))
    } else if is_word(kind, b"zone") {
        let zone = zone_named(site, guesses, name)?;
        Some(numbered(Group::ZonesOff, zone.number))
    } else if is_word(kind, b"output") {
        let output = output_named(site, guesses, name)?;
        Some(numbered(Group::OutputsOff, output.number))
    } else {
        None
    }
}

fn read_numbered(group: Group, text: &[u8]) -> Option<Numbered>
    ensures { result ≡ number_spelled group text.now }
{
    let number = read_octet(text)?;
    Some(numbered(group, number))
}

fn numbered(group: Group, number: u8) -> Numbered
    ensures { result ≡ record { group = group; number = number } }
{
    Numbered { group, number }
}

// The supplies in the order of their bits.
fn supply_number(word: &[u8]) -> Option<u8>
    ensures { result ≡ supply_of word.now }
{
    if is_word(word, b"mains") {
        Some(1)
    } else if is_word(word, b"standby") {
        Some(2)
    } else if is_word(word, b"voltage") {
        Some(3)
    } else if is_word(word, b"charger") {
        Some(4)
    } else {
        None
    }
}

fn zone_named(site: &Site, guesses: &Guesses, name: &[u8]) -> Option<Zone>
    requires { IsValid site.now }
    ensures { result ≡ zone_of_name site.now name.now }
{
    match known_thing(site, guesses, name) {
        Some(Thing::Zone(place)) => site.zones.as_slice().get(place as usize).copied(),
        _ => None,
    }
}

fn point_named(site: &Site, guesses: &Guesses, name: &[u8]) -> Option<Point>
    requires { IsValid site.now }
    ensures { result ≡ point_of_name site.now name.now }
{
    match known_thing(site, guesses, name) {
        Some(Thing::Point(place)) => site.points.as_slice().get(place as usize).copied(),
        _ => None,
    }
}

fn output_named(site: &Site, guesses: &Guesses, name: &[u8]) -> Option<Output>
    requires { IsValid site.now }
    ensures { result ≡ output_of_name site.now name.now }
{
    match known_thing(site, guesses, name) {
        Some(Thing::Output(place)) => site.outputs.as_slice().get(place as usize).copied(),
        _ => None,
    }
}
