//! Which zones the answers of a tick confirm.

ghost use Rattle.std.specs.Prelude.{◌≡◌, ◌&&◌, ◌==◌, length, slice_get};
ghost use Rattle.coincidence_rules.specs.Confirmed.{is_by_call_point};
ghost use Rattle.coincidence_rules.specs.Places.{is_detector as is_detector_by, is_of as is_of_zone, pairs_up, rule_of};
ghost use Rattle.caused_zones.specs.Causes.{cause_with};
ghost use Rattle.caused_zones.specs.Judging.{coincides_by, confirms_by, is_called_now, is_confirmed_now};
ghost use Rattle.caused_zones.specs.Judging.{is_mark_near, is_near_to, mark_at, some_near_to, touches};
ghost use Rattle.caused_zones.specs.Marks.{AreEachAfter};

use crate::cause::Cause;
use crate::marked::Marked;
use crate::point_mark::PointMark;
use site_types::{Rule, Site};
use tick_units::Tick;

/// Takes which zones are confirmed by answers of this tick.
pub fn judge_alarms(alarms: &mut [Cause], marks: &[PointMark], site: &Site, now: Tick)
    ensures { AreEachAfter (λ zone cause. cause_with
        (is_confirmed_now site.now marks.now now.0 zone) cause) alarms.old alarms.new }
{
    let marked = Marked {
        site,
        marks,
        tick: now,
    };
    for place in 0..marks.len() {
        if marks[place].last == now.0 {
            judge_point(alarms, &marked, place);
        }
    }
}

/// Takes which zones are called by hand.
pub fn judge_calls(by_hand: &mut [Cause], marks: &[PointMark], site: &Site, now: Tick)
    ensures { AreEachAfter (λ zone cause. cause_with
        (is_called_now site.now marks.now now.0 zone) cause) by_hand.old by_hand.new }
{
    for place in 0..marks.len() {
        if marks[place].last == now.0 {
            judge_call(by_hand, site, place);
        }
    }
}

// Takes the zone that a point calls by hand.
fn judge_call(by_hand: &mut [Cause], site: &Site, place: usize)
    ensures { AreEachAfter (λ zone cause. cause_with
        (is_by_call_point site.now zone place) cause) by_hand.old by_hand.new }
{
    match site.points.get(place) {
        None => {}
        Some(point) => {
            let zone = point.zone as usize;
            if point.manual && zone < by_hand.len() {
                by_hand[zone] = by_hand[zone].given();
            }
        }
    }
}

// Takes the zones that a point confirms.
fn judge_point(alarms: &mut [Cause], marked: &Marked, place: usize)
    ensures { AreEachAfter (λ zone cause. cause_with (touches marked.now.site.now
        marked.now.marks.now marked.now.tick.0 place zone && confirms_by marked.now.site.now
        marked.now.marks.now marked.now.tick.0 zone place) cause) alarms.old alarms.new }
{
    match marked.site.points.get(place) {
        None => {}
        Some(point) => {
            let zone = point.zone as usize;
            judge_zone(alarms, marked, zone, place);
            judge_partner(alarms, marked, zone, place);
        }
    }
}

ghost use Rattle.coincidence_rules.specs.Places.{on_partner};

// An answer's point may confirm an alarm of its zone's partner.
fn judge_partner(alarms: &mut [Cause], marked: &Marked, zone: usize, place: usize)
    ensures { AreEachAfter (λ other cause. cause_with (on_partner marked.now.site.now zone
        (λ partner. other == partner) && confirms_by marked.now.site.now marked.now.marks.now
        marked.now.tick.0 other place) cause) alarms.old alarms.new }
{
    match marked.site.zones.get(zone) {
        None => {}
        Some(plan) => match plan.partner {
            None => {}
            Some(partner) => judge_zone(alarms, marked, partner as usize, place),
        },
    }
}

// What a zone's cause is after the answer of one point.
fn judge_zone(alarms: &mut [Cause], marked: &Marked, zone: usize, place: usize)
    ensures { AreEachAfter (λ other cause. cause_with ((other == zone)
        && confirms_by marked.now.site.now marked.now.marks.now marked.now.tick.0 other place)
        cause) alarms.old alarms.new }
{
    if zone < alarms.len() && !alarms[zone].stands && confirms(marked, zone, place) {
        alarms[zone] = alarms[zone].given();
    }
}

// Whether a point that counts now confirms a zone.
fn confirms(marked: &Marked, zone: usize, place: usize) -> bool
    ensures { result
        ≡ confirms_by marked.now.site.now marked.now.marks.now marked.now.tick.0 zone place }
{
    match marked.site.points.get(place) {
        None => false,
        Some(point) => {
            if point.manual {
                point.zone as usize == zone
            } else {
                coincides(marked, zone, place)
            }
        }
    }
}

// Whether what a zone's type asks for is there.
fn coincides(marked: &Marked, zone: usize, place: usize) -> bool
    ensures { result ≡ coincides_by marked.now.site.now marked.now.marks.now marked.now.tick.0
        zone (rule_of (slice_get marked.now.site.now.zones zone)) place }
{
    match marked.site.zones.get(zone) {
        None => false,
        Some(plan) => match plan.rule {
            Rule::Plain => is_of(marked.site, zone, place),
            Rule::A { verify, within } => {
                is_of(marked.site, zone, place)
                    && (is_verified(marked.marks, marked.tick, verify, place)
                        || some_near(marked, within, place, zone))
            }
            Rule::B { within } => has_pair(marked, within, place, zone),
            Rule::C => is_of(marked.site, zone, place),
        },
    }
}

// Whether a point makes a pair for a zone.
fn has_pair(marked: &Marked, within: u16, place: usize, zone: usize) -> bool
    ensures { result ≡ pairs_up marked.now.site.now zone place
        (some_near_to marked.now.site.now marked.now.marks.now marked.now.tick.0 within place) }
{
    let own = is_of(marked.site, zone, place);
    match partner_of(marked.site, zone) {
        None => own && some_near(marked, within, place, zone),
        Some(partner) => {
            let other = partner as usize;
            (own && (some_near(marked, within, place, zone)
                || some_near(marked, within, place, other)))
                || (is_of(marked.site, other, place) && some_near(marked, within, place, zone))
        }
    }
}

ghost use Rattle.coincidence_rules.specs.Places.{partner_of as partner_of_zone};

fn partner_of(site: &Site, zone: usize) -> Option<u16>
    ensures { result ≡ partner_of_zone (slice_get site.now.zones zone) }
{
    match site.zones.get(zone) {
        None => None,
        Some(plan) => plan.partner,
    }
}

ghost use Rattle.caused_zones.specs.Judging.{is_mark_verified};

// Whether a point that counts now has counted at each asking for so many ticks.
fn is_verified(marks: &[PointMark], now: Tick, verify: u16, place: usize) -> bool
    ensures { result ≡ is_mark_verified now.0 verify (mark_at marks.now place) }
{
    match marks.get(place) {
        None => now.0 >= verify as u64,
        Some(mark) => now.0.saturating_sub(mark.first) >= verify as u64,
    }
}

// Whether another detector of a zone counted, at most so many ticks ago.
fn some_near(marked: &Marked, within: u16, place: usize, zone: usize) -> bool
    ensures { result ≡ some_near_to marked.now.site.now marked.now.marks.now
        marked.now.tick.0 within place zone }
{
    for other in 0..marked.marks.len() {
        if is_near(marked, within, place, zone, other) {
            return true;
        }
    }
    false
}

fn is_near(marked: &Marked, within: u16, place: usize, zone: usize, other: usize) -> bool
    ensures { result ≡ is_near_to marked.now.site.now marked.now.marks.now
        marked.now.tick.0 within place zone other }
{
    counted_lately(marked.marks, marked.tick, within, other)
        && other != place
        && is_of(marked.site, zone, other)
        && is_detector(marked.site, other)
}

fn counted_lately(marks: &[PointMark], now: Tick, within: u16, place: usize) -> bool
    ensures { result ≡ is_mark_near now.0 within (mark_at marks.now place) }
{
    match marks.get(place) {
        None => false,
        Some(mark) => mark.last > 0 && now.0.saturating_sub(mark.last) <= within as u64,
    }
}

fn is_of(site: &Site, zone: usize, place: usize) -> bool
    ensures { result ≡ is_of_zone site.now zone place }
{
    match site.points.get(place) {
        None => false,
        Some(point) => point.zone as usize == zone,
    }
}

fn is_detector(site: &Site, place: usize) -> bool
    ensures { result ≡ is_detector_by site.now place }
{
    match site.points.get(place) {
        None => false,
        Some(point) => !point.manual,
    }
}
