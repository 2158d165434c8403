ghost use Rattle.std.specs.Prelude.{◌≡◌, ◌++◌, Some, codes};
ghost use Rattle.std.specs.Fmt.{decimal};
ghost use Rattle.std.specs.List.{list_any};
ghost use Rattle.site_document.specs.Refusals.{IsSaid, Tells, first_found, no_such as is_no_such};
ghost use Rattle.site_config.specs.NameMaps.{look_up};
ghost use Rattle.site_config.specs.NoSuch.{
  is_loop_of as is_loop_in,
  is_zone_of as is_zone_in,
  marker_fault,
  no_such_in,
  output_fault,
  partner_fault,
  point_fault,
  term_fault,
  zone_missing,
};

use crate::lookups::{marker_place, zone_place};
use crate::names::{Names, thing_of};
use site_document::{
    Draft, DraftMarker, DraftOutput, DraftPoint, DraftTerm, DraftZone, KeyText, SiteRefusal,
};
use site_types::LoopPlan;
use std::alloc::Global;

/// Refuses a draft in which a name or a number names nothing of its kind.
#[tactic(auto, unfolding(crate::specs::NoSuch::no_such_in))]
pub fn check_references(alloc: Global, names: &Names, draft: &Draft) -> Result<(), SiteRefusal>
    ensures { Tells result (no_such_in (look_up names.now) draft.now) }
{
    check_partners(alloc, names, draft.zones.as_slice())?;
    check_points(alloc, names, draft)?;
    check_outputs(alloc, names, draft.outputs.as_slice())?;
    check_markers(alloc, names, draft.panels, draft.markers.as_slice())
}

fn check_partners(alloc: Global, names: &Names, zones: &[DraftZone]) -> Result<(), SiteRefusal>
    ensures { Tells result (first_found (partner_fault (look_up names.now) zones.now) zones.now) }
{
    'zones: for zone in zones {
        check_partner(alloc, names, zones, zone)?;
    }
    Ok(())
}

#[tactic(auto, unfolding(crate::specs::NoSuch::partner_fault))]
fn check_partner(
    alloc: Global,
    names: &Names,
    zones: &[DraftZone],
    zone: &DraftZone,
) -> Result<(), SiteRefusal>
    ensures { Tells result (partner_fault (look_up names.now) zones.now zone.now) }
{
    match &zone.partner {
        None => Ok(()),
        Some(name) => {
            if is_zone_of(
                zones,
                zone.panel,
                zone_place(thing_of(names, name.as_str())),
            ) {
                Ok(())
            } else {
                Err(no_such(alloc, name))
            }
        }
    }
}

/// Whether a place is that of a zone of the panel.
fn is_zone_of(zones: &[DraftZone], panel: u8, place: Option<u16>) -> bool
    ensures { result ≡ is_zone_in zones.now panel place }
{
    match place {
        None => false,
        Some(place) => match zones.get(place as usize) {
            None => false,
            Some(zone) => zone.panel == panel,
        },
    }
}

fn check_points(alloc: Global, names: &Names, draft: &Draft) -> Result<(), SiteRefusal>
    ensures { Tells result
        (first_found (point_fault (look_up names.now) draft.now.loops draft.now.zones)
        draft.now.points) }
{
    let points = draft.points.as_slice();
    let loops = draft.loops.as_slice();
    let zones = draft.zones.as_slice();
    'points: for point in points {
        check_point(alloc, names, loops, zones, point)?;
    }
    Ok(())
}

#[tactic(auto, unfolding(crate::specs::NoSuch::point_fault))]
fn check_point(
    alloc: Global,
    names: &Names,
    loops: &[LoopPlan],
    zones: &[DraftZone],
    point: &DraftPoint,
) -> Result<(), SiteRefusal>
    ensures { Tells result (point_fault (look_up names.now) loops.now zones.now point.now) }
{
    if !has_address(loops, point) {
        return Err(no_such(alloc, &point.name));
    }
    if is_zone_of(
        zones,
        point.panel,
        zone_place(thing_of(names, point.zone.as_str())),
    ) {
        Ok(())
    } else {
        Err(no_such(alloc, &point.zone))
    }
}

/// Whether a listed loop is the point's and has its address. A loop for each panel and number at most is listed.
fn has_address(loops: &[LoopPlan], point: &DraftPoint) -> bool
    ensures { result ≡ list_any (is_loop_in point.now) loops.now }
{
    loops.iter().any(|plan| is_loop_of(point, plan))
}

fn is_loop_of(point: &DraftPoint, plan: &LoopPlan) -> bool
    ensures { result ≡ is_loop_in point.now plan.now }
{
    plan.panel == point.panel && plan.line == point.line && point.address <= plan.last
}

fn check_outputs(alloc: Global, names: &Names, outputs: &[DraftOutput]) -> Result<(), SiteRefusal>
    ensures { Tells result (first_found (output_fault (look_up names.now)) outputs.now) }
{
    'outputs: for output in outputs {
        check_output(alloc, names, output)?;
    }
    Ok(())
}

#[tactic(auto, unfolding(crate::specs::NoSuch::output_fault))]
fn check_output(alloc: Global, names: &Names, output: &DraftOutput) -> Result<(), SiteRefusal>
    ensures { Tells result (output_fault (look_up names.now) output.now) }
{
    if marker_place(thing_of(names, output.marker.as_str())).is_some() {
        Ok(())
    } else {
        Err(no_such(alloc, &output.marker))
    }
}

fn check_markers(
    alloc: Global,
    names: &Names,
    panels: u8,
    markers: &[DraftMarker],
) -> Result<(), SiteRefusal>
    ensures { Tells result (first_found (marker_fault (look_up names.now) panels) markers.now) }
{
    'markers: for marker in markers {
        check_marker(alloc, names, panels, marker)?;
    }
    Ok(())
}

#[tactic(auto, unfolding(crate::specs::NoSuch::marker_fault))]
fn check_marker(
    alloc: Global,
    names: &Names,
    panels: u8,
    marker: &DraftMarker,
) -> Result<(), SiteRefusal>
    ensures { Tells result (marker_fault (look_up names.now) panels marker.now) }
{
    check_terms(alloc, names, panels, marker.terms.as_slice())
}

fn check_terms(
    alloc: Global,
    names: &Names,
    panels: u8,
    terms: &[DraftTerm],
) -> Result<(), SiteRefusal>
    ensures { Tells result (first_found (term_fault (look_up names.now) panels) terms.now) }
{
    'terms: for term in terms {
        check_term(alloc, names, panels, term)?;
    }
    Ok(())
}

#[tactic(auto, unfolding(crate::specs::NoSuch::term_fault))]
fn check_term(alloc: Global, names: &Names, panels: u8, term: &DraftTerm) -> Result<(), SiteRefusal>
    ensures { Tells result (term_fault (look_up names.now) panels term.now) }
{
    match term {
        DraftTerm::Zone(name) => check_zone(alloc, names, name),
        DraftTerm::Manual(name) => check_zone(alloc, names, name),
        DraftTerm::Fault(panel) => {
            if *panel >= 1 && *panel <= panels as u64 {
                Ok(())
            } else {
                Err(no_such_panel(alloc, *panel))
            }
        }
        DraftTerm::Marker(name) => {
            if marker_place(thing_of(names, name.as_str())).is_some() {
                Ok(())
            } else {
                Err(no_such(alloc, name))
            }
        }
    }
}

fn check_zone(alloc: Global, names: &Names, name: &KeyText) -> Result<(), SiteRefusal>
    ensures { Tells result (zone_missing (look_up names.now) name.now) }
{
    if zone_place(thing_of(names, name.as_str())).is_some() {
        Ok(())
    } else {
        Err(no_such(alloc, name))
    }
}

fn no_such(alloc: Global, name: &KeyText) -> SiteRefusal
    ensures { IsSaid result (Some (is_no_such name.now)) }
{
    match KeyText::from_str(alloc, name.as_str()) {
        Ok(text) => SiteRefusal::NoSuch(text),
        Err(_) => SiteRefusal::NoMemory,
    }
}

fn no_such_panel(alloc: Global, panel: u64) -> SiteRefusal
    ensures { IsSaid result (Some (is_no_such (codes "fault:" ++ decimal panel))) }
{
    match format!(in alloc; "fault:{panel}") {
        Ok(text) => SiteRefusal::NoSuch(KeyText::from_string(text)),
        Err(_) => SiteRefusal::NoMemory,
    }
}
