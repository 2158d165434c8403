ghost use Rattle.std.specs.Prelude.{◌≡◌, ◌==◌, IfOk, map, max, nat_lt, not, if◌then◌else◌};
ghost use Rattle.std.specs.List.{list_any};
ghost use Rattle.site_types.specs.Sections.{section_of as section_in};
ghost use Rattle.site_document.specs.Refusals.{Tells, first_found};
ghost use Rattle.site_config.specs.Crossing.{
  crossing_at,
  crossing_in,
  has_two_zones as has_two_zones_in,
  in_section as in_section_of,
  is_on as is_on_loop,
  loop_crossing,
  on_loop as points_on,
  section_point as section_point_of,
  spot_of as spot_in,
};
ghost use Rattle.site_config.specs.NameMaps.{look_up};

use crate::lookups::zone_place;
use crate::names::{Names, thing_of};
use crate::section_point::SectionPoint;
use crate::spot::Spot;
use site_document::{DraftPoint, SiteRefusal};
use site_types::LoopPlan;
use std::alloc::{AllocError, Global};

/// Where each point stands, with the place of its zone.
pub fn spots_of(
    alloc: Global,
    names: &Names,
    points: &[DraftPoint],
) -> Result<Vec<Spot>, AllocError>
    ensures { IfOk result (λ spots. spots.items ≡ map (spot_in (look_up names.now)) points.now) }
{
    points
        .iter()
        .map(|point| spot_of(names, point))
        .collect(alloc)
}

fn spot_of(names: &Names, point: &DraftPoint) -> Spot
    ensures { result ≡ spot_in (look_up names.now) point.now }
{
    Spot {
        panel: point.panel,
        line: point.line,
        address: point.address,
        zone: zone_place(thing_of(names, point.zone.as_str())).unwrap_or(0),
    }
}

/// Refuses the first section that holds points of two zones.
#[tactic(auto, unfolding(crate::specs::Crossing::crossing_in))]
pub fn check_sections(alloc: Global, spots: &[Spot], loops: &[LoopPlan]) -> Result<(), SiteRefusal>
    ensures { Tells result (crossing_in spots.now loops.now) }
{
    'loops: for plan in loops {
        check_loop(alloc, spots, plan)?;
    }
    Ok(())
}

#[tactic(auto, unfolding(crate::specs::Crossing::loop_crossing))]
fn check_loop(alloc: Global, spots: &[Spot], plan: &LoopPlan) -> Result<(), SiteRefusal>
    ensures { Tells result (loop_crossing spots.now plan.now) }
{
    let points = on_loop(alloc, plan, spots)?;
    check_section(alloc, plan, points.as_slice(), 0)?;
    let isolators = plan.isolators.as_slice();
    'isolators: for place in isolators {
        check_section(alloc, plan, points.as_slice(), *place)?;
    }
    Ok(())
}

#[tactic(auto, unfolding(crate::specs::Crossing::crossing_at))]
fn check_section(
    alloc: Global,
    plan: &LoopPlan,
    points: &[SectionPoint],
    place: u8,
) -> Result<(), SiteRefusal>
    ensures { Tells result (crossing_at plan.now points.now place) }
{
    let inside = in_section(alloc, place, points)?;
    if has_two_zones(inside.as_slice()) {
        Err(SiteRefusal::SectionCrossesZones {
            panel: plan.panel,
            line: plan.line,
            place,
        })
    } else {
        Ok(())
    }
}

/// The points of a loop.
#[tactic(auto, unfolding(crate::specs::Crossing::on_loop))]
fn on_loop(alloc: Global, plan: &LoopPlan, spots: &[Spot]) -> Result<Vec<SectionPoint>, AllocError>
    ensures { IfOk result (λ points. points.items ≡ points_on plan.now spots.now) }
{
    spots
        .iter()
        .filter(|spot| is_on(plan, spot))
        .map(|spot| section_point(plan, spot))
        .collect(alloc)
}

fn is_on(plan: &LoopPlan, spot: &Spot) -> bool
    ensures { result ≡ is_on_loop plan.now spot.now }
{
    spot.panel == plan.panel && spot.line == plan.line
}

fn section_point(plan: &LoopPlan, spot: &Spot) -> SectionPoint
    ensures { result ≡ section_point_of plan.now spot.now }
{
    SectionPoint {
        section: section_of(plan.isolators.as_slice(), spot.address),
        zone: spot.zone,
    }
}

/// The place at which the section of an address begins.
fn section_of(isolators: &[u8], address: u8) -> u8
    ensures { result ≡ section_in isolators.now address }
{
    let mut section = 0;
    'isolators: for place in isolators {
        section = next_section(section, *place, address);
    }
    section
}

fn next_section(section: u8, place: u8, address: u8) -> u8
    ensures { result ≡ (if nat_lt place address then max section place else section) }
{
    if place < address {
        section.max(place)
    } else {
        section
    }
}

fn in_section(
    alloc: Global,
    place: u8,
    points: &[SectionPoint],
) -> Result<Vec<SectionPoint>, AllocError>
    ensures { IfOk result (λ inside. inside.items ≡ in_section_of place points.now) }
{
    points
        .iter()
        .filter(|point| point.section == place)
        .copied()
        .collect(alloc)
}

fn has_two_zones(points: &[SectionPoint]) -> bool
    ensures { result ≡ has_two_zones_in points.now }
{
    match points.first() {
        None => false,
        Some(first) => has_other_zone(points, first.zone),
    }
}

fn has_other_zone(points: &[SectionPoint], zone: u16) -> bool
    ensures { result ≡ list_any (λ point. not (point.zone == zone)) points.now }
{
    points.iter().any(|point| point.zone != zone)
}
