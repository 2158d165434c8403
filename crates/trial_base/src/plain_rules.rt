//! A plain slow program of the rules of coincidence. For each answer it looks through all answers and all
//! operations anew, and keeps nothing.

use coincidence::Finding;
use site_types::{Answer, Heard, Item, Operation, Rule, Site, Zone, with_bit_32};
use std::alloc::{AllocError, Global};

/// An operation that was done in a tick, in force from the next tick on.
#[derive(Clone, Copy)]
pub struct DoneAt {
    pub tick: u64,
    pub operation: Operation,
}

/// The cases in which an answer confirms a zone.
#[derive(Clone, Copy, Default)]
pub struct Cases {
    /// A manual call point of the zone.
    pub manual: bool,
    /// A detector of a zone of no type.
    pub plain: bool,
    /// A detector of a zone of type C.
    pub c: bool,
    /// One detector of a zone of type A.
    pub verified: bool,
    /// Two detectors of a zone of type A.
    pub two: bool,
    /// Two detectors of a zone of type B, or of it and its partner.
    pub b: bool,
}

impl Cases {
    fn any(&self) -> bool {
        self.manual || self.plain || self.c || self.verified || self.two || self.b
    }

    fn or(&self, other: &Cases) -> Cases {
        Cases {
            manual: self.manual || other.manual,
            plain: self.plain || other.plain,
            c: self.c || other.c,
            verified: self.verified || other.verified,
            two: self.two || other.two,
            b: self.b || other.b,
        }
    }
}

/// What an answer means: its finding, and by which cases it confirms zones.
#[derive(Clone, Copy)]
pub struct Judged {
    pub finding: Finding,
    pub cases: Cases,
}

/// An answer with what the site says of its point, and whether it counts.
#[derive(Clone, Copy)]
struct Seen {
    answer: Answer,
    stamp: u64,
    point: u16,
    zone: u16,
    manual: bool,
    counts: bool,
}

/// The rules of a site for the operations that were done, each after those before it.
#[derive(Drop)]
pub struct PlainRules<'a> {
    pub site: &'a Site,
    pub panel: u8,
    pub done: &'a [DoneAt],
}

impl<'a> PlainRules<'a> {
    /// What each answer means among those that were given up to it, itself the last.
    pub fn judge_all(&self, alloc: Global, answers: &[Answer]) -> Result<Vec<Judged>, AllocError> {
        let mut among: Vec<Seen> = Vec::new(alloc);
        let mut judged = Vec::new(alloc);
        for answer in answers {
            let seen = self.seen(answer);
            among.push(seen)?;
            judged.push(self.judge(&among, &seen))?;
        }
        Ok(judged)
    }

    // An alarm counts where its point isn't disabled, nor its zone, which isn't in test.
    fn seen(&self, answer: &Answer) -> Seen {
        let x = answer.stamp.0;
        let (zone, manual) = match self.site.points.get(answer.point as usize) {
            None => (u16::MAX, false),
            Some(point) => (point.zone, point.manual),
        };
        let counts = answer.heard == Heard::Alarm
            && !self.is_off(Item::Point(answer.point), x)
            && !self.is_off(Item::Zone(zone), x)
            && !self.is_in_test(zone, x);
        Seen {
            answer: *answer,
            stamp: x,
            point: answer.point,
            zone,
            manual,
            counts,
        }
    }

    fn judge(&self, among: &[Seen], seen: &Seen) -> Judged {
        let mut finding = Finding {
            stamp: seen.answer.stamp,
            point: seen.point,
            missing: is_missing(among, seen.point),
            ..Finding::default()
        };
        let mut cases = Cases::default();
        let mut place: u16 = 0;
        for zone in self.site.zones.as_slice() {
            if zone.panel == self.panel && seen.counts {
                let by = self.confirms(among, seen, place, zone);
                let released = self.releases(among, seen, place, zone, &by);
                finding.counted = with_zone(finding.counted, zone, seen.zone == place);
                finding.confirmed = with_zone(finding.confirmed, zone, by.any());
                finding.manual = with_zone(finding.manual, zone, by.manual);
                finding.released = with_zone(finding.released, zone, released);
                cases = cases.or(&by);
            }
            place = place.saturating_add(1);
        }
        Judged { finding, cases }
    }

    // By which cases an answer that counts confirms a zone.
    fn confirms(&self, among: &[Seen], seen: &Seen, place: u16, zone: &Zone) -> Cases {
        let mut cases = Cases::default();
        let own = seen.zone == place;
        if seen.manual {
            cases.manual = own;
            return cases;
        }
        match zone.rule {
            Rule::Plain => cases.plain = own,
            Rule::C => cases.c = own,
            Rule::A { verify, within } => {
                let floor = self.floor(place, seen.stamp);
                cases.verified = own && is_verified(among, seen, verify as u64, floor);
                cases.two = own && has_near(among, seen, place, within as u64, floor);
            }
            Rule::B { within } => {
                let within = within as u64;
                cases.b = own && self.has_uncancelled(among, seen, place, within);
                if let Some(other) = zone.partner {
                    cases.b = cases.b
                        || own && self.has_uncancelled(among, seen, other, within)
                        || seen.zone == other && self.has_uncancelled(among, seen, place, within);
                }
            }
        }
        cases
    }

    // Whether an answer that counts, and confirms a zone by these cases, releases it.
    fn releases(&self, among: &[Seen], seen: &Seen, place: u16, zone: &Zone, by: &Cases) -> bool {
        if zone.rule != Rule::C {
            return by.any();
        }
        let own = seen.zone == place;
        if by.manual || own && self.has_second(among, seen, place) {
            return true;
        }
        match zone.partner {
            None => false,
            Some(other) => {
                own && self.has_second(among, seen, other)
                    || seen.zone == other && self.has_second(among, seen, place)
            }
        }
    }

    // Another detector of a zone counted at most so many ticks before, after the zone's floor and its last cancelling.
    fn has_uncancelled(&self, among: &[Seen], seen: &Seen, place: u16, within: u64) -> bool {
        let floor = self.floor(place, seen.stamp);
        let cancelled = self.cancelled(place, seen.stamp);
        has_near(among, seen, place, within, floor.max(cancelled))
    }

    // Another point of a zone counted after the zone's floor.
    fn has_second(&self, among: &[Seen], seen: &Seen, place: u16) -> bool {
        let floor = self.floor(place, seen.stamp);
        among.iter().any(|other| other.zone == place
            && other.counts
            && other.point != seen.point
            && other.stamp > floor
            && other.stamp <= seen.stamp)
    }

    fn is_off(&self, item: Item, x: u64) -> bool {
        let mut off = false;
        for done in self.done {
            if done.tick < x {
                if done.operation == Operation::Disable(item) {
                    off = true;
                }
                if done.operation == Operation::Enable(item) {
                    off = false;
                }
            }
        }
        off
    }

    fn is_in_test(&self, zone: u16, x: u64) -> bool {
        let mut test = false;
        for done in self.done {
            if done.tick < x {
                if done.operation == Operation::Test(zone) {
                    test = true;
                }
                if done.operation == Operation::Untest(zone) {
                    test = false;
                }
            }
        }
        test
    }

    // The greatest tick before x with a reset, or with a disabling or a test of the zone, else 0.
    fn floor(&self, place: u16, x: u64) -> u64 {
        let mut floor = 0;
        for done in self.done {
            let moves = match done.operation {
                Operation::Reset => true,
                Operation::Disable(Item::Zone(zone)) | Operation::Test(zone) => zone == place,
                _ => false,
            };
            if moves && done.tick < x && done.tick > floor {
                floor = done.tick;
            }
        }
        floor
    }

    // The greatest tick before x with a cancelling of the zone, else 0.
    fn cancelled(&self, place: u16, x: u64) -> u64 {
        let mut cancelled = 0;
        for done in self.done {
            let cancels = done.operation == Operation::Cancel(place);
            if cancels && done.tick < x && done.tick > cancelled {
                cancelled = done.tick;
            }
        }
        cancelled
    }
}

// One detector for so long: each of its answers from an early one, after a floor, to this one counts.
fn is_verified(among: &[Seen], seen: &Seen, verify: u64, floor: u64) -> bool {
    among.iter().any(|first| first.point == seen.point
        && first.counts
        && first.stamp > floor
        && first.stamp <= seen.stamp
        && seen.stamp - first.stamp >= verify
        && counts_throughout(among, seen, first.stamp))
}

// Whether each answer of the point from a stamp on to this one counts.
fn counts_throughout(among: &[Seen], seen: &Seen, from: u64) -> bool {
    among.iter().all(|other| other.point != seen.point
        || other.stamp < from
        || other.stamp > seen.stamp
        || other.counts)
}

// Another detector of a zone counted at most so many ticks before, and after a tick.
fn has_near(among: &[Seen], seen: &Seen, place: u16, within: u64, after: u64) -> bool {
    among.iter().any(|other| other.zone == place
        && other.counts
        && !other.manual
        && other.point != seen.point
        && other.stamp > after
        && other.stamp <= seen.stamp
        && seen.stamp - other.stamp <= within)
}

// Whether the last three answers of a point were silent.
fn is_missing(among: &[Seen], point: u16) -> bool {
    let mut silent: u32 = 0;
    for seen in among {
        if seen.point == point {
            silent = if seen.answer.heard == Heard::Silent {
                silent.saturating_add(1)
            } else {
                0
            };
        }
    }
    silent >= 3
}

// A mask with the bit of a zone, if it is on.
fn with_zone(mask: u32, zone: &Zone, on: bool) -> u32 {
    if on && zone.number >= 1 && zone.number <= 32 {
        with_bit_32(mask, zone.number - 1, true)
    } else {
        mask
    }
}
