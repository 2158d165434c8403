ghost use Rattle.std.specs.Prelude.{◌≡◌, ◌<◌, ◌≤◌, Some, map, slice_get, IfOk, ℕ};
ghost use Rattle.site_types.specs.declared.point.Point.{Point as PointPlan};
ghost use Rattle.site_types.specs.declared.zone.Zone.{Zone as ZonePlan};
ghost use Rattle.site_types.specs.Bits.{IsPlace};
ghost use Rattle.site_types.specs.Changes.{IsPanelNumber, IsNumber};
ghost use Rattle.site_types.specs.Done.{kept_point, kept_zone, kept_test};
ghost use Rattle.coincidence.specs.Parts.{point_from, zone_from};

use crate::point_watch::PointWatch;
use crate::zone_watch::ZoneWatch;
use site_types::{Point, Retained, Zone, has_bit_32};
use std::alloc::Global;
use tick_units::NoMemory;

/// What is kept of each point at the start.
pub fn watch_points(
    alloc: Global,
    points: &[Point],
    kept: &Retained,
) -> Result<Vec<PointWatch>, NoMemory>
    requires { (k : ℕ) (point : PointPlan) → slice_get points.now k ≡ Some point
        → IsPanelNumber point.panel × IsPlace point.line point.address }
    ensures { IfOk result (λ watches. watches.items ≡ map (point_from kept.now) points.now) }
{
    let mut watches = Vec::new(alloc);
    for point in points {
        watches.push(PointWatch::new(point, is_point_off(kept, point)))?;
    }
    Ok(watches)
}

/// What is kept of each zone at the start.
pub fn watch_zones(
    alloc: Global,
    zones: &[Zone],
    kept: &Retained,
) -> Result<Vec<ZoneWatch>, NoMemory>
    requires { (k : ℕ) (zone : ZonePlan) → slice_get zones.now k ≡ Some zone
        → IsPanelNumber zone.panel × IsNumber zone.number }
    ensures { IfOk result (λ watches. watches.items ≡ map (zone_from kept.now) zones.now) }
{
    let mut watches = Vec::new(alloc);
    for zone in zones {
        watches.push(ZoneWatch::new(zone, is_zone_off(kept, zone), is_in_test(kept, zone)))?;
    }
    Ok(watches)
}

fn is_point_off(kept: &Retained, point: &Point) -> bool
    requires panel { IsPanelNumber point.now.panel }
    requires place { IsPlace point.now.line point.now.address }
    ensures { result ≡ kept_point kept.now (Some point.now) }
{
    kept.points[point.panel as usize - 1].contains(point.line, point.address)
}

fn is_zone_off(kept: &Retained, zone: &Zone) -> bool
    requires panel { IsPanelNumber zone.now.panel }
    requires number { IsNumber zone.now.number }
    ensures { result ≡ kept_zone kept.now (Some zone.now) }
{
    has_bit_32(kept.zones[zone.panel as usize - 1], zone.number - 1)
}

fn is_in_test(kept: &Retained, zone: &Zone) -> bool
    requires panel { IsPanelNumber zone.now.panel }
    requires number { IsNumber zone.now.number }
    ensures { result ≡ kept_test kept.now (Some zone.now) }
{
    has_bit_32(kept.tests[zone.panel as usize - 1], zone.number - 1)
}
