//! Which points are of a zone, and which zone is a zone's partner. Points and zones are places in the site's lists.

ghost use Rattle.std.specs.Prelude.{◌≡◌, option_copied, slice_get};
ghost use Rattle.coincidence_rules.specs.Places.{detects as detects_so, is_call_point as is_call_point_so};
ghost use Rattle.coincidence_rules.specs.Places.{is_detector as is_detector_by, is_manual as is_manual_so};
ghost use Rattle.coincidence_rules.specs.Places.{is_of as is_of_zone, lies_in as lies_in_zone};
ghost use Rattle.coincidence_rules.specs.Places.{partner_of as partner_of_zone, rule_of as rule_of_zone};

use site_types::{Point, Rule, Site, Zone};

/// Whether a point is of a zone.
pub(crate) fn is_of(site: &Site, zone: usize, point: u16) -> bool
    ensures { result ≡ is_of_zone site.now zone point }
{
    lies_in(zone, site.points.get(point as usize))
}

/// Whether a point is a manual call point.
pub(crate) fn is_manual(site: &Site, point: u16) -> bool
    ensures { result ≡ is_manual_so site.now point }
{
    is_call_point(site.points.get(point as usize))
}

/// Whether a point is a detector.
pub(crate) fn is_detector(site: &Site, point: u16) -> bool
    ensures { result ≡ is_detector_by site.now point }
{
    detects(site.points.get(point as usize))
}

/// The type of a zone.
pub(crate) fn rule_at(site: &Site, zone: usize) -> Option<Rule>
    ensures { result ≡ rule_of_zone (slice_get site.now.zones zone) }
{
    rule_of(site.zones.get(zone))
}

/// The partner of a zone.
pub(crate) fn partner_at(site: &Site, zone: usize) -> Option<u16>
    ensures { result ≡ partner_of_zone (slice_get site.now.zones zone) }
{
    partner_of(site.zones.get(zone))
}

fn lies_in(zone: usize, point: Option<&Point>) -> bool
    ensures { result ≡ lies_in_zone zone (option_copied point.entry) }
{
    match point {
        None => false,
        Some(point) => point.zone as usize == zone,
    }
}

fn is_call_point(point: Option<&Point>) -> bool
    ensures { result ≡ is_call_point_so (option_copied point.entry) }
{
    match point {
        None => false,
        Some(point) => point.manual,
    }
}

fn detects(point: Option<&Point>) -> bool
    ensures { result ≡ detects_so (option_copied point.entry) }
{
    match point {
        None => false,
        Some(point) => !point.manual,
    }
}

fn rule_of(zone: Option<&Zone>) -> Option<Rule>
    ensures { result ≡ rule_of_zone (option_copied zone.entry) }
{
    match zone {
        None => None,
        Some(zone) => Some(zone.rule),
    }
}

fn partner_of(zone: Option<&Zone>) -> Option<u16>
    ensures { result ≡ partner_of_zone (option_copied zone.entry) }
{
    match zone {
        None => None,
        Some(zone) => zone.partner,
    }
}
