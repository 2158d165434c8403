ghost use Rattle.std.specs.Prelude.{◌≡◌, IfOk, map};
ghost use Rattle.site_config.specs.Crossing.{place_or_zero};
ghost use Rattle.site_config.specs.NamedList.{AreListed};
ghost use Rattle.site_config.specs.NameMaps.{look_up};
ghost use Rattle.site_config.specs.NoSuch.{marker_place as marker_place_of, zone_place as zone_place_of};
ghost use Rattle.site_config.specs.Placing.{
  marker_view,
  output_view,
  partner_place as partner_place_of,
  placed_marker,
  placed_output,
  placed_point,
  placed_site,
  placed_term,
  placed_zone,
  point_view,
  site_view,
  zone_view,
};

use crate::lookups::{marker_place, zone_place};
use crate::named_list::names_of;
use crate::names::{Names, thing_of};
use site_document::{
    Draft, DraftMarker, DraftOutput, DraftPoint, DraftTerm, DraftZone, KeyText, byte_of,
};
use site_types::{Label, Marker, Output, Point, Site, Term, Zone, read_name};
use std::alloc::{AllocError, Global};
use tick_units::Items;

/// The label of a name. Each name of a draft has a name's form, since its table was looked at before.
pub fn label_of(name: &str) -> Result<Label, AllocError>
    ensures { IfOk result (λ label. label.bytes ≡ name.now) }
{
    match read_name(name.as_bytes()) {
        Some(label) => Ok(label),
        None => Err(AllocError),
    }
}

fn zone_of(names: &Names, name: &KeyText) -> u16
    ensures { result ≡ place_or_zero (zone_place_of (look_up names.now name.now)) }
{
    zone_place(thing_of(names, name.as_str())).unwrap_or(0)
}

fn marker_of(names: &Names, name: &KeyText) -> u16
    ensures { result ≡ place_or_zero (marker_place_of (look_up names.now name.now)) }
{
    marker_place(thing_of(names, name.as_str())).unwrap_or(0)
}

fn partner_of(names: &Names, partner: &Option<KeyText>) -> Option<u16>
    ensures { result ≡ partner_place_of (look_up names.now) partner.now }
{
    match partner {
        None => None,
        Some(name) => Some(zone_of(names, name)),
    }
}

#[tactic(auto, unfolding(crate::specs::Placing::placed_zone))]
fn place_zone(names: &Names, zone: &DraftZone) -> Result<Zone, AllocError>
    ensures { IfOk result (λ placed. zone_view placed ≡ placed_zone (look_up names.now) zone.now) }
{
    Ok(Zone {
        name: label_of(zone.name.as_str())?,
        panel: zone.panel,
        number: zone.number,
        rule: zone.rule,
        partner: partner_of(names, &zone.partner),
    })
}

fn place_zones(alloc: Global, names: &Names, zones: &[DraftZone]) -> Result<Items<Zone>, AllocError>
    ensures { IfOk result (λ placed. map zone_view placed ≡ map (placed_zone (look_up names.now))
        zones.now) }
{
    let mut placed = Vec::new(alloc);
    'zones: for zone in zones {
        placed.push(place_zone(names, zone)?)?;
    }
    Ok(Items::from_vec(placed))
}

#[tactic(auto, unfolding(crate::specs::Placing::placed_point))]
fn place_point(names: &Names, point: &DraftPoint) -> Result<Point, AllocError>
    ensures { IfOk result (λ placed. point_view placed ≡ placed_point (look_up names.now)
        point.now) }
{
    Ok(Point {
        name: label_of(point.name.as_str())?,
        panel: point.panel,
        line: point.line,
        address: point.address,
        zone: zone_of(names, &point.zone),
        manual: point.manual,
    })
}

fn place_points(
    alloc: Global,
    names: &Names,
    points: &[DraftPoint],
) -> Result<Items<Point>, AllocError>
    ensures { IfOk result (λ placed. map point_view placed ≡ map (placed_point (look_up names.now))
        points.now) }
{
    let mut placed = Vec::new(alloc);
    'points: for point in points {
        placed.push(place_point(names, point)?)?;
    }
    Ok(Items::from_vec(placed))
}

#[tactic(auto, unfolding(crate::specs::Placing::placed_output))]
fn place_output(names: &Names, output: &DraftOutput) -> Result<Output, AllocError>
    ensures { IfOk result (λ placed. output_view placed ≡ placed_output (look_up names.now)
        output.now) }
{
    Ok(Output {
        name: label_of(output.name.as_str())?,
        panel: output.panel,
        number: output.number,
        kind: output.kind,
        marker: marker_of(names, &output.marker),
        delay: output.delay,
    })
}

fn place_outputs(
    alloc: Global,
    names: &Names,
    outputs: &[DraftOutput],
) -> Result<Items<Output>, AllocError>
    ensures { IfOk result
        (λ placed. map output_view placed ≡ map (placed_output (look_up names.now)) outputs.now) }
{
    let mut placed = Vec::new(alloc);
    'outputs: for output in outputs {
        placed.push(place_output(names, output)?)?;
    }
    Ok(Items::from_vec(placed))
}

fn place_term(names: &Names, term: &DraftTerm) -> Term
    ensures { result ≡ placed_term (look_up names.now) term.now }
{
    match term {
        DraftTerm::Zone(name) => Term::Zone(zone_of(names, name)),
        DraftTerm::Manual(name) => Term::Manual(zone_of(names, name)),
        DraftTerm::Fault(panel) => Term::Fault(byte_of(*panel)),
        DraftTerm::Marker(name) => Term::Marker(marker_of(names, name)),
    }
}

fn place_terms(alloc: Global, names: &Names, terms: &[DraftTerm]) -> Result<Items<Term>, AllocError>
    ensures { IfOk result (λ placed. placed ≡ map (placed_term (look_up names.now)) terms.now) }
{
    Ok(Items::from_vec(terms_of(alloc, names, terms)?))
}

fn terms_of(alloc: Global, names: &Names, terms: &[DraftTerm]) -> Result<Vec<Term>, AllocError>
    ensures { IfOk result (λ placed. placed.items ≡ map (placed_term (look_up names.now))
        terms.now) }
{
    terms
        .iter()
        .map(|term| place_term(names, term))
        .collect(alloc)
}

#[tactic(auto, unfolding(crate::specs::Placing::placed_marker))]
fn place_marker(alloc: Global, names: &Names, marker: &DraftMarker) -> Result<Marker, AllocError>
    ensures { IfOk result (λ placed. marker_view placed ≡ placed_marker (look_up names.now)
        marker.now) }
{
    Ok(Marker {
        name: label_of(marker.name.as_str())?,
        combine: marker.combine,
        terms: place_terms(alloc, names, marker.terms.as_slice())?,
    })
}

fn place_markers(
    alloc: Global,
    names: &Names,
    markers: &[DraftMarker],
) -> Result<Items<Marker>, AllocError>
    ensures { IfOk result
        (λ placed. map marker_view placed ≡ map (placed_marker (look_up names.now)) markers.now) }
{
    let mut placed = Vec::new(alloc);
    'markers: for marker in markers {
        placed.push(place_marker(alloc, names, marker)?)?;
    }
    Ok(Items::from_vec(placed))
}

/// The site that a draft spells, with places in place of names.
#[tactic(auto, unfolding(crate::specs::Placing::placed_site))]
pub fn place_site(alloc: Global, names: &Names, draft: Draft) -> Result<Site, AllocError>
    ensures seen { IfOk result (λ site. site_view site ≡ placed_site (look_up names.now) draft) }
    ensures named { IfOk result (λ site. AreListed (look_up names.now) site.names) }
{
    let name = label_of(draft.name.as_str())?;
    let zones = place_zones(alloc, names, draft.zones.as_slice())?;
    let points = place_points(alloc, names, draft.points.as_slice())?;
    let outputs = place_outputs(alloc, names, draft.outputs.as_slice())?;
    let markers = place_markers(alloc, names, draft.markers.as_slice())?;
    let listed = names_of(alloc, names)?;
    Ok(Site {
        format: draft.format,
        name,
        panels: draft.panels,
        waits: draft.waits,
        codes: draft.codes,
        loops: draft.loops,
        zones,
        points,
        outputs,
        markers,
        names: listed,
    })
}
