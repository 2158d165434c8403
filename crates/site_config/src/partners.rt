ghost use Rattle.std.specs.Prelude.{◌≡◌, Some, option_copied};
ghost use Rattle.std.specs.Str.{bytes_eq};
ghost use Rattle.site_types.specs.Valid.{is_partner_type as is_partner_type_of};
ghost use Rattle.site_document.specs.Refusals.{IsSaid, Tells, first_found, partner_not_mutual};
ghost use Rattle.site_config.specs.NameMaps.{look_up};
ghost use Rattle.site_config.specs.Partners.{is_mutual as is_mutual_in, is_named as is_named_in, mutual_fault};
ghost use Rattle.site_config.specs.Partners.{unmutual_in, zone_at as zone_in};

use crate::lookups::zone_place;
use crate::names::{Names, thing_of};
use site_document::{DraftZone, KeyText, SiteRefusal};
use site_types::{Rule, read_name};

/// Refuses the first zone whose partner isn't mutual.
#[tactic(auto, unfolding(crate::specs::Partners::unmutual_in))]
pub fn check_mutual(names: &Names, zones: &[DraftZone]) -> Result<(), SiteRefusal>
    ensures { Tells result (unmutual_in (look_up names.now) zones.now) }
{
    'zones: for zone in zones {
        check_zone(names, zones, zone)?;
    }
    Ok(())
}

#[tactic(auto, unfolding(crate::specs::Partners::mutual_fault))]
fn check_zone(names: &Names, zones: &[DraftZone], zone: &DraftZone) -> Result<(), SiteRefusal>
    ensures { Tells result (mutual_fault (look_up names.now) zones.now zone.now) }
{
    match &zone.partner {
        None => Ok(()),
        Some(name) => match zone_at(zones, zone_place(thing_of(names, name.as_str()))) {
            None => Err(not_mutual(zone)),
            Some(partner) => {
                if is_mutual(zone, name, partner) {
                    Ok(())
                } else {
                    Err(not_mutual(zone))
                }
            }
        },
    }
}

fn zone_at(zones: &[DraftZone], place: Option<u16>) -> Option<&DraftZone>
    ensures { option_copied result ≡ zone_in zones.now place }
{
    match place {
        None => None,
        Some(place) => zones.get(place as usize),
    }
}

fn is_mutual(zone: &DraftZone, name: &KeyText, partner: &DraftZone) -> bool
    ensures { result ≡ is_mutual_in zone.now name.now (Some partner.now) }
{
    !is_same(name.as_str(), zone.name.as_str())
        && is_named(&zone.name, &partner.partner)
        && is_partner_type(zone.rule, partner.rule)
}

fn is_same(name: &str, other: &str) -> bool
    ensures { result ≡ bytes_eq name.now other.now }
{
    name == other
}

fn is_named(name: &KeyText, other: &Option<KeyText>) -> bool
    ensures { result ≡ is_named_in name.now other.now }
{
    match other {
        None => false,
        Some(other) => is_same(other.as_str(), name.as_str()),
    }
}

/// Whether both rules are of type B, or both of type C.
fn is_partner_type(rule: Rule, other: Rule) -> bool
    ensures { result ≡ is_partner_type_of rule other }
{
    match rule {
        Rule::Plain => false,
        Rule::A { .. } => false,
        Rule::B { .. } => match other {
            Rule::Plain => false,
            Rule::A { .. } => false,
            Rule::B { .. } => true,
            Rule::C => false,
        },
        Rule::C => match other {
            Rule::Plain => false,
            Rule::A { .. } => false,
            Rule::B { .. } => false,
            Rule::C => true,
        },
    }
}

/// The refusal of a zone. Its name has a name's form, since its table was looked at before.
fn not_mutual(zone: &DraftZone) -> SiteRefusal
    ensures { IsSaid result (Some (partner_not_mutual zone.now.name)) }
{
    match read_name(zone.name.as_str().as_bytes()) {
        Some(label) => SiteRefusal::PartnerNotMutual(label),
        None => SiteRefusal::NoMemory,
    }
}
