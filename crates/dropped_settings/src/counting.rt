//! How many settings a site begins with.

ghost use Rattle.std.specs.Prelude.{◌≡◌};
ghost use Rattle.dropped_settings.specs.Moved.{outputs_off as output_count, points_off as point_count};
ghost use Rattle.dropped_settings.specs.Moved.{zones_in_test as test_count, zones_off as zone_count};
ghost use Rattle.site_types.specs.Valid.{IsValid};

use crate::settings::{is_in_test, is_output_off, is_point_off, is_zone_off};
use site_types::{Retained, Site};

/// How many points of a site are disabled.
pub fn points_off(site: &Site, kept: &Retained) -> usize
    requires { IsValid site.now }
    ensures { result ≡ point_count site.now kept.now }
{
    let mut count = 0;
    for point in site.points.as_slice() {
        if is_point_off(kept, point) {
            count += 1;
        }
    }
    count
}

/// How many zones of a site are disabled.
pub fn zones_off(site: &Site, kept: &Retained) -> usize
    requires { IsValid site.now }
    ensures { result ≡ zone_count site.now kept.now }
{
    let mut count = 0;
    for zone in site.zones.as_slice() {
        if is_zone_off(kept, zone) {
            count += 1;
        }
    }
    count
}

/// How many outputs of a site are disabled.
pub fn outputs_off(site: &Site, kept: &Retained) -> usize
    requires { IsValid site.now }
    ensures { result ≡ output_count site.now kept.now }
{
    let mut count = 0;
    for output in site.outputs.as_slice() {
        if is_output_off(kept, output) {
            count += 1;
        }
    }
    count
}

/// How many zones of a site are in test.
pub fn zones_in_test(site: &Site, kept: &Retained) -> usize
    requires { IsValid site.now }
    ensures { result ≡ test_count site.now kept.now }
{
    let mut count = 0;
    for zone in site.zones.as_slice() {
        if is_in_test(kept, zone) {
            count += 1;
        }
    }
    count
}
