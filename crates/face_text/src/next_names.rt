//! How lines name the things of a group one after another, by one walk over the site's list of them.
//!
//! Behind what is passed stand all that have the number that is asked for or a greater one, whatever the order
//! of the list. Where a panel's things stand in the order of their numbers the walk meets each, else the list is
//! searched.

ghost use Rattle.std.specs.Prelude.{◌≡◌, ◌&&◌, ◌==◌, ◌+◌, drop, nat_le, option_map};
ghost use Rattle.std.specs.List.{position};
ghost use Rattle.face_text.specs.declared.group.Group.TheVariants.{Missing, Outputs, Zones};
ghost use Rattle.face_text.specs.NextNames.{AreNamedBehind};
ghost use Rattle.face_text.specs.Slots.{name_in, output_name as name_of_output, point_name as name_of_point};
ghost use Rattle.face_text.specs.Slots.{zone_name as name_of_zone};

use crate::group::Group;
use crate::naming::{name_of, output_name, point_name, zone_name};
use site_types::{Label, Output, Point, Site, Zone};

/// How the page of a panel names the thing of a group with a number, as `name_of` answers it, where so many
/// things of the list are passed.
#[inline(always)]
pub fn next_name(
    site: &Site,
    panel: u8,
    group: Group,
    number: u8,
    passed: &mut usize,
) -> Option<Label>
    requires { AreNamedBehind passed.old site.now panel group number }
    ensures name { option_map (λ label. label.bytes) result ≡ name_in site.now panel group number }
    ensures passed { AreNamedBehind passed.new site.now panel group (number + 1) }
{
    match group {
        Group::Zones(other) | Group::Firsts(other) => next_zone(site, other, number, passed),
        Group::Missing(line) | Group::PointsOff(line) => {
            next_point(site, panel, line, number, passed)
        }
        Group::Unconfirmed | Group::Outputs | Group::Confirmed | Group::OutputsOff => {
            next_output(site, panel, number, passed)
        }
        Group::ZonesOff | Group::Tests => next_zone(site, panel, number, passed),
        Group::Broken | Group::Shorted | Group::Supplies | Group::Silent | Group::Links => {
            name_of(site, panel, group, number)
        }
    }
}

#[inline(always)]
fn next_zone(site: &Site, panel: u8, number: u8, passed: &mut usize) -> Option<Label>
    requires { AreNamedBehind passed.old site.now panel (Zones panel) number }
    ensures name { option_map (λ label. label.bytes) result ≡ name_of_zone site.now panel number }
    ensures passed { AreNamedBehind passed.new site.now panel (Zones panel) (number + 1) }
{
    let left = left_of(site.zones.as_slice(), *passed);
    let Some(skipped) = first_zone(left, panel, number) else {
        return None;
    };
    *passed += skipped;
    let zone = &left[skipped];
    if zone.number == number {
        *passed += 1;
        return Some(zone.name);
    }
    zone_name(site, panel, number)
}

#[inline(always)]
fn next_point(site: &Site, panel: u8, line: u8, address: u8, passed: &mut usize) -> Option<Label>
    requires { AreNamedBehind passed.old site.now panel (Missing line) address }
    ensures name { option_map (λ label. label.bytes) result
        ≡ name_of_point site.now panel line address }
    ensures passed { AreNamedBehind passed.new site.now panel (Missing line) (address + 1) }
{
    let left = left_of(site.points.as_slice(), *passed);
    let Some(skipped) = first_point(left, panel, line, address) else {
        return None;
    };
    *passed += skipped;
    let point = &left[skipped];
    if point.address == address {
        *passed += 1;
        return Some(point.name);
    }
    point_name(site, panel, line, address)
}

#[inline(always)]
fn next_output(site: &Site, panel: u8, number: u8, passed: &mut usize) -> Option<Label>
    requires { AreNamedBehind passed.old site.now panel Outputs number }
    ensures name { option_map (λ label. label.bytes) result ≡ name_of_output site.now panel number }
    ensures passed { AreNamedBehind passed.new site.now panel Outputs (number + 1) }
{
    let left = left_of(site.outputs.as_slice(), *passed);
    let Some(skipped) = first_output(left, panel, number) else {
        return None;
    };
    *passed += skipped;
    let output = &left[skipped];
    if output.number == number {
        *passed += 1;
        return Some(output.name);
    }
    output_name(site, panel, number)
}

// What is left of a list behind so many things.
fn left_of<T>(list: &[T], passed: usize) -> &[T]
    ensures { result.now ≡ drop passed list.now }
{
    &list[passed.min(list.len())..]
}

// The first zone of a panel with a number or a greater one.
fn first_zone(zones: &[Zone], panel: u8, number: u8) -> Option<usize>
    ensures { result
        ≡ position (λ zone. (zone.panel == panel) && nat_le number zone.number) zones.now }
{
    zones
        .iter()
        .position(|zone| zone.panel == panel && number <= zone.number)
}

// The first point of a panel's line with an address or a greater one.
fn first_point(points: &[Point], panel: u8, line: u8, address: u8) -> Option<usize>
    ensures { result ≡ position (λ point. (point.panel == panel) && (point.line == line)
        && nat_le address point.address) points.now }
{
    points.iter().position(|point| point.panel == panel
        && point.line == line
        && address <= point.address)
}

// The first output of a panel with a number or a greater one.
fn first_output(outputs: &[Output], panel: u8, number: u8) -> Option<usize>
    ensures { result
        ≡ position (λ output. (output.panel == panel) && nat_le number output.number) outputs.now }
{
    outputs
        .iter()
        .position(|output| output.panel == panel && number <= output.number)
}
