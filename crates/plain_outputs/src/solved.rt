ghost use Rattle.std.specs.Prelude.{◌≡◌, ◌-◌, ℕ, count_by, slice_get};
ghost use Rattle.std.specs.List.{list_all, list_any};
ghost use Rattle.site_types.specs.Bits.{has_bit};
ghost use Rattle.site_types.specs.Valid.{IsValid};
ghost use Rattle.marker_table.specs.Equations.{equation, holds as holds_over, is_met as meets, values_of, zone_bit};
ghost use Rattle.panel_rules.specs.Markers.{Facts as FactsOf, solution};
ghost use Rattle.panel_bridges.specs.FactMasks.{AreFacts};

use marker_table::{Facts, Values};
use site_types::{Combine, Marker, Site, Term, has_bit_8, has_bit_32};

/// The markers that are true over facts.
pub fn solved(site: &Site, facts: &Facts) -> Values
    requires { IsValid site.now }
    ensures { (rules : FactsOf) → AreFacts site.now rules facts.now → (marker : ℕ)
        → values_of result marker ≡ solution site.now rules marker }
{
    let mut values = Values::none();
    for _round in 0..site.markers.len() {
        values = evaluated(site, facts, &values);
    }
    values
}

/// The facts that count by hand: zones where a manual call point did it, and no faults.
pub fn by_hand(facts: &Facts) -> Facts
    ensures zones { result.zones ≡ facts.now.manual }
    ensures manual { result.manual ≡ facts.now.manual }
    ensures faults { result.faults ≡ 0 }
{
    Facts {
        zones: facts.manual,
        manual: facts.manual,
        faults: 0,
    }
}

// What each marker's terms make of it over facts and values of the markers.
fn evaluated(site: &Site, facts: &Facts, values: &Values) -> Values
    requires { IsValid site.now }
    ensures { (marker : ℕ)
        → values_of result marker ≡ equation site.now facts.now (values_of values.now) marker }
{
    let mut next = Values::none();
    for (place, marker) in site.markers.as_slice().iter().enumerate() {
        next.set(place as u8, is_met(site, facts, values, marker));
    }
    next
}

// Whether enough of a marker's terms hold.
fn is_met(site: &Site, facts: &Facts, values: &Values, marker: &Marker) -> bool
    requires { IsValid site.now }
    ensures { result ≡ meets marker.now.combine
        (holds_over site.now facts.now (values_of values.now)) marker.now.terms }
{
    let terms = marker.terms.as_slice();
    match marker.combine {
        Combine::All => all_hold(site, facts, values, terms),
        Combine::Any => any_holds(site, facts, values, terms),
        Combine::AtLeast(needed) => count(site, facts, values, terms) >= needed as usize,
    }
}

fn all_hold(site: &Site, facts: &Facts, values: &Values, terms: &[Term]) -> bool
    requires { IsValid site.now }
    ensures { result ≡ list_all (holds_over site.now facts.now (values_of values.now)) terms.now }
{
    terms.iter().all(|term| holds(site, facts, values, *term))
}

fn any_holds(site: &Site, facts: &Facts, values: &Values, terms: &[Term]) -> bool
    requires { IsValid site.now }
    ensures { result ≡ list_any (holds_over site.now facts.now (values_of values.now)) terms.now }
{
    terms.iter().any(|term| holds(site, facts, values, *term))
}

// How many terms hold.
fn count(site: &Site, facts: &Facts, values: &Values, terms: &[Term]) -> usize
    requires { IsValid site.now }
    ensures { result ≡ count_by (holds_over site.now facts.now (values_of values.now)) terms.now }
{
    terms
        .iter()
        .filter(|term| holds(site, facts, values, **term))
        .count()
}

// Whether a term holds.
fn holds(site: &Site, facts: &Facts, values: &Values, term: Term) -> bool
    requires { IsValid site.now }
    ensures { result ≡ holds_over site.now facts.now (values_of values.now) term }
{
    match term {
        Term::Zone(zone) => has_zone(site, &facts.zones, zone as usize),
        Term::Manual(zone) => has_zone(site, &facts.manual, zone as usize),
        Term::Fault(panel) => has_fault(facts.faults, panel),
        Term::Marker(marker) => values.is_true(marker),
    }
}

// Whether a zone's bit is set in masks by panel.
pub(crate) fn has_zone(site: &Site, masks: &[u32; 8], zone: usize) -> bool
    requires { IsValid site.now }
    ensures { result ≡ zone_bit masks.now (slice_get site.now.zones zone) }
{
    match site.zones.get(zone) {
        None => false,
        Some(zone) => has_bit_32(masks[zone.panel as usize - 1], zone.number - 1),
    }
}

// Whether a panel's bit is set.
fn has_fault(faults: u8, panel: u8) -> bool
    ensures { result ≡ has_bit faults (panel - 1) }
{
    let bit = panel.saturating_sub(1);
    bit < 8 && has_bit_8(faults, bit)
}
