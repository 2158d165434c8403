//! How many things of a list of the site stand before all those of a panel or of one of its loops.

ghost use Rattle.std.specs.Prelude.{◌≡◌, ◌==◌, ◌&&◌, false, take};
ghost use Rattle.std.specs.List.{list_any, position};
ghost use Rattle.site_types.specs.declared.output.Output.{Output as OutputPlan};
ghost use Rattle.site_types.specs.declared.point.Point.{Point as PointPlan};
ghost use Rattle.site_types.specs.declared.zone.Zone.{Zone as ZonePlan};

use site_types::{Output, Point, Zone};

/// How many zones stand before the first one of a panel, or all where it has none.
pub(crate) fn zones_before(zones: &[Zone], panel: u8) -> usize
    ensures { list_any (λ (zone : ZonePlan). zone.panel == panel)
        (take result zones.now) ≡ false }
{
    match first_zone(zones, panel) {
        Some(place) => place,
        None => zones.len(),
    }
}

fn first_zone(zones: &[Zone], panel: u8) -> Option<usize>
    ensures { result ≡ position (λ zone. zone.panel == panel) zones.now }
{
    zones.iter().position(|zone| zone.panel == panel)
}

/// How many points stand before the first one of a panel's loop, or all where it has none.
pub(crate) fn points_before(points: &[Point], panel: u8, line: u8) -> usize
    ensures { list_any (λ (point : PointPlan). (point.panel == panel) && (point.line == line))
        (take result points.now) ≡ false }
{
    match first_point(points, panel, line) {
        Some(place) => place,
        None => points.len(),
    }
}

fn first_point(points: &[Point], panel: u8, line: u8) -> Option<usize>
    ensures { result ≡ position (λ point. (point.panel == panel) && (point.line == line))
        points.now }
{
    points
        .iter()
        .position(|point| point.panel == panel && point.line == line)
}

/// How many outputs stand before the first one of a panel, or all where it has none.
pub(crate) fn outputs_before(outputs: &[Output], panel: u8) -> usize
    ensures { list_any (λ (output : OutputPlan). output.panel == panel)
        (take result outputs.now) ≡ false }
{
    match first_output(outputs, panel) {
        Some(place) => place,
        None => outputs.len(),
    }
}

fn first_output(outputs: &[Output], panel: u8) -> Option<usize>
    ensures { result ≡ position (λ output. output.panel == panel) outputs.now }
{
    outputs.iter().position(|output| output.panel == panel)
}
