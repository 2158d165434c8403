//! What is kept of a site, read by the places in its lists.

ghost use Rattle.std.specs.Prelude.{◌≡◌, ◌-◌, option_copied, slice_index, slice_index_or};
ghost use Rattle.site_types.specs.Bits.{has_bit, has_point as has_point_at};
ghost use Rattle.site_types.specs.Done.{at_opening, kept_output as kept_output_of};
ghost use Rattle.site_types.specs.Done.{kept_point as kept_point_of, kept_test as kept_test_of};
ghost use Rattle.site_types.specs.Done.{kept_zone as kept_zone_of, no_points};
ghost use Rattle.panel_settings.specs.Settings.{setting_from};

use crate::setting::Setting;
use site_types::{
    Output, Point, PointSet, Retained, Site, Zone, has_bit_8, has_bit_32, has_bit_128,
};

/// The value that a setting has in what is retained; of a counter it is false.
pub fn value_in(site: &Site, kept: &Retained, setting: Setting) -> bool
    ensures { result ≡ at_opening site.now kept.now (setting_from setting) }
{
    match setting {
        Setting::PointOff(point) => kept_point(kept, site.points.get(point)),
        Setting::ZoneOff(zone) => kept_zone(kept, site.zones.get(zone)),
        Setting::OutputOff(output) => kept_output(kept, site.outputs.get(output)),
        Setting::InTest(zone) => kept_test(kept, site.zones.get(zone)),
        Setting::DelaysOff(panel) => has_number_8(kept.delays_off, panel),
        Setting::Counter(_) => false,
    }
}

fn kept_point(kept: &Retained, point: Option<&Point>) -> bool
    ensures { result ≡ kept_point_of kept.now (option_copied point.entry) }
{
    match point {
        None => false,
        Some(point) => match kept.points.get(place_of(point.panel)) {
            None => false,
            Some(set) => has_point(set, point.line, point.address),
        },
    }
}

fn kept_zone(kept: &Retained, zone: Option<&Zone>) -> bool
    ensures { result ≡ kept_zone_of kept.now (option_copied zone.entry) }
{
    match zone {
        None => false,
        Some(zone) => has_number(&kept.zones, zone.panel, zone.number),
    }
}

fn kept_output(kept: &Retained, output: Option<&Output>) -> bool
    ensures { result ≡ kept_output_of kept.now (option_copied output.entry) }
{
    match output {
        None => false,
        Some(output) => has_number(&kept.outputs, output.panel, output.number),
    }
}

fn kept_test(kept: &Retained, zone: Option<&Zone>) -> bool
    ensures { result ≡ kept_test_of kept.now (option_copied zone.entry) }
{
    match zone {
        None => false,
        Some(zone) => has_number(&kept.tests, zone.panel, zone.number),
    }
}

// The place of a panel, a loop or an address in a list that begins with number 1.
fn place_of(number: u8) -> usize
    ensures { result ≡ number - 1 }
{
    number.saturating_sub(1) as usize
}

// Whether the mask of a panel has the bit of a number.
fn has_number(masks: &[u32; 8], panel: u8, number: u8) -> bool
    ensures { result ≡ has_bit (slice_index masks.now (panel - 1)) (number - 1) }
{
    match masks.get(place_of(panel)) {
        None => false,
        Some(mask) => has_number_32(*mask, number),
    }
}

fn has_number_8(mask: u8, number: u8) -> bool
    ensures { result ≡ has_bit mask (number - 1) }
{
    let bit = number.saturating_sub(1);
    bit < 8 && has_bit_8(mask, bit)
}

fn has_number_32(mask: u32, number: u8) -> bool
    ensures { result ≡ has_bit mask (number - 1) }
{
    let bit = number.saturating_sub(1);
    bit < 32 && has_bit_32(mask, bit)
}

// Whether a set of points has the point of a line and an address, whatever they are.
fn has_point(set: &PointSet, line: u8, address: u8) -> bool
    ensures { result ≡ has_point_at set.now line address }
{
    match set.loops.get(place_of(line)) {
        None => false,
        Some(halves) => has_address(halves, address),
    }
}

ghost use Rattle.site_types.specs.Bits.{bit_of, half_of};

fn has_address(halves: &[u128; 2], address: u8) -> bool
    ensures { result ≡ has_bit (slice_index halves.now (half_of address)) (bit_of address) }
{
    let place = place_of(address);
    match halves.get(place / 96) {
        None => false,
        Some(half) => has_bit_128(*half, (place % 96) as u8),
    }
}
