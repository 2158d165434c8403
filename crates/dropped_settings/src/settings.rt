//! What is kept of single things, and whether a site has a thing of a name.

ghost use Rattle.std.specs.Prelude.{◌≡◌, Some};
ghost use Rattle.dropped_settings.specs.Names.{has_name as site_has_name, is_of_kind};
ghost use Rattle.site_types.specs.Bits.{IsPlace};
ghost use Rattle.site_types.specs.Changes.{IsNumber, IsPanelNumber};
ghost use Rattle.site_types.specs.Done.{kept_output, kept_point, kept_test, kept_zone};
ghost use Rattle.site_types.specs.Valid.{IsValid};

use crate::kind::Kind;
use site_types::{Label, Output, Point, Retained, Site, Thing, Zone, has_bit_32};

/// Whether a site has a thing of this kind and name.
pub fn has_name(site: &Site, kind: Kind, name: &Label) -> bool
    requires { IsValid site.now }
    ensures { result ≡ site_has_name site.now kind name.now.bytes }
{
    match site.find(name.as_str().as_bytes()) {
        Some(thing) => is_of_kind(kind, thing),
        None => false,
    }
}

fn is_of_kind(kind: Kind, thing: Thing) -> bool
    ensures { result ≡ is_of_kind kind thing }
{
    match (kind, thing) {
        (Kind::Point, Thing::Point(_)) => true,
        (Kind::Zone, Thing::Zone(_)) => true,
        (Kind::Output, Thing::Output(_)) => true,
        _ => false,
    }
}

/// Whether a point is disabled.
pub fn is_point_off(kept: &Retained, point: &Point) -> bool
    requires panel { IsPanelNumber point.now.panel }
    requires place { IsPlace point.now.line point.now.address }
    ensures { result ≡ kept_point kept.now (Some point.now) }
{
    kept.points[point.panel as usize - 1].contains(point.line, point.address)
}

/// Whether a zone is disabled.
pub fn is_zone_off(kept: &Retained, zone: &Zone) -> bool
    requires panel { IsPanelNumber zone.now.panel }
    requires number { IsNumber zone.now.number }
    ensures { result ≡ kept_zone kept.now (Some zone.now) }
{
    has_bit_32(kept.zones[zone.panel as usize - 1], zone.number - 1)
}

/// Whether an output is disabled.
pub fn is_output_off(kept: &Retained, output: &Output) -> bool
    requires panel { IsPanelNumber output.now.panel }
    requires number { IsNumber output.now.number }
    ensures { result ≡ kept_output kept.now (Some output.now) }
{
    has_bit_32(kept.outputs[output.panel as usize - 1], output.number - 1)
}

/// Whether a zone is in test.
pub fn is_in_test(kept: &Retained, zone: &Zone) -> bool
    requires panel { IsPanelNumber zone.now.panel }
    requires number { IsNumber zone.now.number }
    ensures { result ≡ kept_test kept.now (Some zone.now) }
{
    has_bit_32(kept.tests[zone.panel as usize - 1], zone.number - 1)
}
