//! Zones and outputs by name, and the bits of masks that stand for them.

ghost use Rattle.site_types.specs.Valid.{IsValid};

use crate::lines::Lines;
use anyhow::{Result, bail};
use site_types::{Output, Site, Thing, Zone, has_bit_32, with_bit_32};

/// Says the zones of a panel in a mask, by number, or `nothing`.
pub fn say_zones(lines: &mut Lines, site: &Site, panel: u8, zones: u32) {
    let mut space = "";
    for number in 1..33 {
        if has_bit_32(zones, number - 1) {
            lines.say(space);
            say_zone(lines, site, panel, number);
            space = " ";
        }
    }
    say_if_none(lines, zones);
}

/// Says the outputs of a panel in a mask, by number, or `nothing`.
pub fn say_outputs(lines: &mut Lines, site: &Site, panel: u8, outputs: u32) {
    let mut space = "";
    for number in 1..33 {
        if has_bit_32(outputs, number - 1) {
            lines.say(space);
            say_output(lines, site, panel, number);
            space = " ";
        }
    }
    say_if_none(lines, outputs);
}

fn say_if_none(lines: &mut Lines, mask: u32) {
    if mask == 0 {
        lines.say("nothing");
    }
}

// The name of a zone, or the number where the site hasn't it.
fn say_zone(lines: &mut Lines, site: &Site, panel: u8, number: u8) {
    for zone in site.zones.as_slice() {
        if zone.panel == panel && zone.number == number {
            lines.say(zone.name.as_str());
            return;
        }
    }
    lines.number(number as u64);
}

/// Says the name of an output of a panel, or its number where the site hasn't it.
pub fn say_output(lines: &mut Lines, site: &Site, panel: u8, number: u8) {
    for output in site.outputs.as_slice() {
        if output.panel == panel && output.number == number {
            lines.say(output.name.as_str());
            return;
        }
    }
    lines.number(number as u64);
}

/// Says the name of a point by its place, or that place where the site hasn't it.
pub fn say_point(lines: &mut Lines, site: &Site, place: u16) {
    match site.points.get(place as usize) {
        Some(point) => lines.say(point.name.as_str()),
        None => lines.number(place as u64),
    }
}

/// The zone of a name.
pub fn zone_of<'a>(site: &'a Site, name: &str) -> Option<&'a Zone>
    requires { IsValid site.now }
{
    match site.find(name.as_bytes()) {
        Some(Thing::Zone(place)) => site.zones.get(place as usize),
        _ => None,
    }
}

/// A mask with the bit of a number, 1 to 32, in it.
pub fn with_number(mask: u32, number: u8) -> u32 {
    if number >= 1 && number <= 32 {
        with_bit_32(mask, number - 1, true)
    } else {
        mask
    }
}

/// A mask of outputs by these names, `nothing` for none.
pub fn outputs_of(site: &Site, names: &str) -> Result<u32>
    requires { IsValid site.now }
{
    let mut outputs = 0;
    for name in names.split(' ') {
        match output_of(site, name) {
            Some(output) => outputs = with_number(outputs, output.number),
            None => {
                if name != "nothing" {
                    bail!("no output: {name}");
                }
            }
        }
    }
    Ok(outputs)
}

fn output_of<'a>(site: &'a Site, name: &str) -> Option<&'a Output>
    requires { IsValid site.now }
{
    match site.find(name.as_bytes()) {
        Some(Thing::Output(place)) => site.outputs.get(place as usize),
        _ => None,
    }
}
