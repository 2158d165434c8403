ghost use Rattle.std.specs.Prelude.{◌≡◌, ◌≤◌};
ghost use Rattle.site_types.specs.Carry.{carried, carried_counters, carried_delays, is_restricted, output_changes};
ghost use Rattle.site_types.specs.Carry.{point_changes, test_changes, was_restricted, zone_changes};
ghost use Rattle.site_types.specs.Limits.{most_panels};
ghost use Rattle.site_types.specs.Valid.{IsValid};
ghost use Rattle.site_types.specs.Changes.{changed_by};

use crate::change::Change;
use crate::label::Label;
use crate::named::Thing;
use crate::restriction::Restriction;
use crate::retained::{Retained, has_number};
use crate::site::Site;

/// What a changed site keeps of what was retained for the site before: disablements and tests of the points,
/// zones and outputs whose name is of the same kind in both, delays and counters of the panels that it has.
/// All else is dropped.
pub fn carry(old: &Site, new: &Site, state: &Retained) -> Retained
    requires old_valid { IsValid old.now }
    requires new_valid { IsValid new.now }
    ensures { result ≡ carried old.now new.now state.now }
{
    let mut kept = Retained::empty();
    carry_points(&mut kept, old, new, state);
    carry_zones(&mut kept, old, new, state);
    carry_outputs(&mut kept, old, new, state);
    carry_tests(&mut kept, old, new, state);
    kept.delays_off = carry_delays(new.panels, state.delays_off);
    kept.counters = carry_counters(new.panels, &state.counters);
    kept
}

fn carry_points(kept: &mut Retained, old: &Site, new: &Site, state: &Retained)
    requires old_valid { IsValid old.now }
    requires new_valid { IsValid new.now }
    ensures { kept.new ≡ changed_by (point_changes old.now new.now state.now) kept.old }
{
    for point in new.points.as_slice() {
        if was_restricted(old, state, Restriction::PointOff, &point.name) {
            kept.apply(&Change::Point {
                panel: point.panel,
                line: point.line,
                address: point.address,
                off: true,
            });
        }
    }
}

fn carry_zones(kept: &mut Retained, old: &Site, new: &Site, state: &Retained)
    requires old_valid { IsValid old.now }
    requires new_valid { IsValid new.now }
    ensures { kept.new ≡ changed_by (zone_changes old.now new.now state.now) kept.old }
{
    for zone in new.zones.as_slice() {
        if was_restricted(old, state, Restriction::ZoneOff, &zone.name) {
            kept.apply(&Change::Zone {
                panel: zone.panel,
                number: zone.number,
                off: true,
            });
        }
    }
}

fn carry_outputs(kept: &mut Retained, old: &Site, new: &Site, state: &Retained)
    requires old_valid { IsValid old.now }
    requires new_valid { IsValid new.now }
    ensures { kept.new ≡ changed_by (output_changes old.now new.now state.now) kept.old }
{
    for output in new.outputs.as_slice() {
        if was_restricted(old, state, Restriction::OutputOff, &output.name) {
            kept.apply(&Change::Output {
                panel: output.panel,
                number: output.number,
                off: true,
            });
        }
    }
}

fn carry_tests(kept: &mut Retained, old: &Site, new: &Site, state: &Retained)
    requires old_valid { IsValid old.now }
    requires new_valid { IsValid new.now }
    ensures { kept.new ≡ changed_by (test_changes old.now new.now state.now) kept.old }
{
    for zone in new.zones.as_slice() {
        if was_restricted(old, state, Restriction::InTest, &zone.name) {
            kept.apply(&Change::Test {
                panel: zone.panel,
                number: zone.number,
                on: true,
            });
        }
    }
}

// Whether the old site has a thing of this name and kind that was restricted so.
fn was_restricted(old: &Site, state: &Retained, restriction: Restriction, name: &Label) -> bool
    requires { IsValid old.now }
    ensures { result ≡ was_restricted old.now state.now restriction name.now.bytes }
{
    match old.find(name.as_str().as_bytes()) {
        Some(thing) => is_restricted(old, state, restriction, thing),
        None => false,
    }
}

// Whether a thing is restricted so; a thing of another kind is not.
fn is_restricted(site: &Site, state: &Retained, restriction: Restriction, thing: Thing) -> bool
    requires { IsValid site.now }
    ensures { result ≡ is_restricted site.now state.now restriction thing }
{
    match (restriction, thing) {
        (Restriction::PointOff, Thing::Point(place)) => match site.points.get(place as usize) {
            Some(point) => state.points[point.panel as usize - 1].contains(
                point.line,
                point.address,
            ),
            None => false,
        },
        (Restriction::ZoneOff, Thing::Zone(place)) => match site.zones.get(place as usize) {
            Some(zone) => has_number(&state.zones, zone.panel, zone.number),
            None => false,
        },
        (Restriction::OutputOff, Thing::Output(place)) => match site.outputs.get(place as usize) {
            Some(output) => has_number(&state.outputs, output.panel, output.number),
            None => false,
        },
        (Restriction::InTest, Thing::Zone(place)) => match site.zones.get(place as usize) {
            Some(zone) => has_number(&state.tests, zone.panel, zone.number),
            None => false,
        },
        _ => false,
    }
}

// The delays of the first panels.
fn carry_delays(panels: u8, delays_off: u8) -> u8
    requires { panels ≤ most_panels }
    ensures { result ≡ carried_delays panels delays_off }
{
    let first = ((1_u16 << panels) - 1) as u8;
    delays_off & first
}

// The counters of the first panels.
fn carry_counters(panels: u8, counters: &[u32; 8]) -> [u32; 8]
    requires { panels ≤ most_panels }
    ensures { result ≡ carried_counters panels counters.now }
{
    let mut carried = [0; 8];
    let panels = panels as usize;
    carried[..panels].copy_from_slice(&counters[..panels]);
    carried
}
