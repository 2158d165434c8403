//! How lines name the things of a site.

ghost use Rattle.std.specs.Prelude.{◌≡◌, ◌&&◌, ◌==◌, ◌≤◌, length, option_map};
ghost use Rattle.site_types.specs.Events.{is_link as site_has_link, is_panel as site_has_panel};
ghost use Rattle.face_text.specs.Slots.{has_loop as site_has_loop, name_in, number_if, output_name as name_of_output};
ghost use Rattle.face_text.specs.Slots.{point_name as name_of_point, supply_name as name_of_supply};
ghost use Rattle.face_text.specs.Slots.{zone_name as name_of_zone};

use crate::group::Group;
use itoa::Buffer;
use site_types::{Label, Site};

/// How the page of a panel names the thing of a group with a number, if the site has it. It goes once over the
/// list in which the site has such things.
pub fn name_of(site: &Site, panel: u8, group: Group, number: u8) -> Option<Label>
    ensures { option_map (λ label. label.bytes) result ≡ name_in site.now panel group number }
{
    match group {
        Group::Zones(other) | Group::Firsts(other) => zone_name(site, other, number),
        Group::Missing(line) | Group::PointsOff(line) => point_name(site, panel, line, number),
        Group::Broken | Group::Shorted => number_name(has_loop(site, panel, number), number),
        Group::Supplies => supply_name(number),
        Group::Silent => number_name(is_panel(site, number), number),
        Group::Links => number_name(is_link(site, number), number),
        Group::Unconfirmed | Group::Outputs | Group::Confirmed | Group::OutputsOff => {
            output_name(site, panel, number)
        }
        Group::ZonesOff | Group::Tests => zone_name(site, panel, number),
    }
}

/// The name of a panel's zone.
pub fn zone_name(site: &Site, panel: u8, number: u8) -> Option<Label>
    ensures { option_map (λ label. label.bytes) result ≡ name_of_zone site.now panel number }
{
    let found = site
        .zones
        .as_slice()
        .iter()
        .find(|zone| zone.panel == panel && zone.number == number);
    match found {
        Some(zone) => Some(zone.name),
        None => None,
    }
}

/// The name of a point of a panel's line.
pub fn point_name(site: &Site, panel: u8, line: u8, address: u8) -> Option<Label>
    ensures { option_map (λ label. label.bytes) result ≡ name_of_point site.now panel line address }
{
    let found = site.points.as_slice().iter().find(|point| point.panel == panel
        && point.line == line
        && point.address == address);
    match found {
        Some(point) => Some(point.name),
        None => None,
    }
}

/// The name of a panel's output.
pub fn output_name(site: &Site, panel: u8, number: u8) -> Option<Label>
    ensures { option_map (λ label. label.bytes) result ≡ name_of_output site.now panel number }
{
    let found = site
        .outputs
        .as_slice()
        .iter()
        .find(|output| output.panel == panel && output.number == number);
    match found {
        Some(output) => Some(output.name),
        None => None,
    }
}

fn has_loop(site: &Site, panel: u8, line: u8) -> bool
    ensures { result ≡ site_has_loop site.now panel line }
{
    site.loops
        .as_slice()
        .iter()
        .any(|plan| plan.panel == panel && plan.line == line)
}

/// Whether a site has a panel with this number, counted from 1.
pub fn is_panel(site: &Site, panel: u8) -> bool
    ensures { result ≡ site_has_panel site.now panel }
{
    1 <= panel && panel <= site.panels
}

fn is_link(site: &Site, link: u8) -> bool
    ensures { result ≡ site_has_link site.now link }
{
    2 <= site.panels && 1 <= link && link <= site.panels
}

// The supplies in the order of their bits.
fn supply_name(number: u8) -> Option<Label>
    ensures { option_map (λ label. label.bytes) result ≡ name_of_supply number }
{
    if number == 1 {
        Some(label("mains"))
    } else if number == 2 {
        Some(label("standby"))
    } else if number == 3 {
        Some(label("voltage"))
    } else if number == 4 {
        Some(label("charger"))
    } else {
        None
    }
}

// A number as a name, where there is such a thing.
fn number_name(there: bool, number: u8) -> Option<Label>
    ensures { option_map (λ label. label.bytes) result ≡ number_if there number }
{
    if there {
        let mut digits = Buffer::new();
        Some(label(digits.format(number)))
    } else {
        None
    }
}

fn label(text: &str) -> Label
    requires { length text.now ≤ 16 }
    ensures { result.bytes ≡ text.now }
{
    let mut label = Label::new();
    label.push_str(text);
    label
}
