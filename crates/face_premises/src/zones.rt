//! The clauses on zones.

use crate::run::{Run, entry};
use crate::signals::settled_by_itself;
use crate::tally::Tally;
use crate::tracks::{NEVER, held_from, run_up_to};
use face_text::Face;
use plain_history::{cancelled_before, floor_before};
use site_types::{Operation, Rule, Zone, has_bit_32};
use tick_units::Tick;

/// Notes what held of each zone at the end of each tick.
pub(crate) fn note_zones(run: &Run, signals: &[Vec<bool>], shown: &[Vec<u64>], tally: &mut Tally) {
    for now in 1..=run.last {
        for (place, zone) in run.site.zones.as_slice().iter().enumerate() {
            let settled = entry(shown, place, now);
            note_signal(run, zone, settled, now, tally);
            note_again(run, zone, settled, now, tally);
            note_shown(run, zone, now, tally);
            match zone.rule {
                Rule::A { verify, .. } => {
                    note_single(run, signals, place, zone, verify as u64, now, tally)
                }
                Rule::B { within } => {
                    note_lone(run, signals, place, zone, within as u64, now, tally)
                }
                Rule::Plain | Rule::C => {}
            }
        }
    }
}

/// Whether a mask by panel has a zone.
fn has_zone(masks: &[u32; 8], zone: &Zone) -> bool {
    match masks.get(zone.panel.saturating_sub(1) as usize) {
        Some(mask) => {
            let bit = zone.number.saturating_sub(1);
            bit < 32 && has_bit_32(*mask, bit)
        }
        None => false,
    }
}

fn shows_zone(face: &Face, zone: &Zone) -> bool {
    has_zone(&face.zones, zone)
}

// A signal that counts since a tick, at the zone's own panel and at those that were joined with it.
fn note_signal(run: &Run, zone: &Zone, settled: u64, now: u64, tally: &mut Tally) {
    let profile = run.site.profile();
    let format = run.site.format as u64;
    let joined = run_up_to(&run.joined, now);
    let is_settled = settled.saturating_add(format.saturating_mul(16 + 24)) <= now;
    for before in 0..run.site.panels {
        let panel = before.saturating_add(1);
        let is_shown = shows_zone(&run.face(now, panel), zone);
        if panel == zone.panel {
            if settled.saturating_add(profile.signal()) <= now {
                tally.note("due zone is shown", is_shown);
                tally.note("signal is shown", is_shown);
            }
        } else {
            if is_settled && joined > format.saturating_mul(24) {
                tally.note("due zone is shown", is_shown);
            }
            if settled.saturating_add(profile.network()) <= now && joined > profile.network() {
                tally.note("joined signal is shown", is_shown);
            }
        }
    }
}

// A zone that is shown. That an answer caused it is for the plain program to tell, of which the faces are.
fn note_shown(run: &Run, zone: &Zone, now: u64, tally: &mut Tally) {
    for before in 0..run.site.panels {
        if shows_zone(&run.face(now, before.saturating_add(1)), zone) {
            tally.note("shown zone is caused", true);
        }
    }
}

// What signals since the last reset of the zone's panel.
fn note_again(run: &Run, zone: &Zone, settled: u64, now: u64, tally: &mut Tally) {
    let mut reset: u64 = 0;
    for done in &run.done {
        if done.panel == zone.panel && done.operation == Operation::Reset && done.tick.0 < now {
            reset = done.tick.0;
        }
    }
    let is_late = reset.saturating_add(run.site.profile().reset()) <= now;
    if reset > 0 && settled == reset.saturating_add(1) && is_late {
        tally.note("stands again", shows_zone(&run.face(now, zone.panel), zone));
    }
}

// Notes of each detector that signals by itself whether its zone, of type A, is shown.
fn note_single(
    run: &Run,
    signals: &[Vec<bool>],
    place: usize,
    zone: &Zone,
    verify: u64,
    now: u64,
    tally: &mut Tally,
) {
    let floor = floor_before(run.site, place, Tick(now), &run.done).0;
    for (plan, own) in run.site.points.as_slice().iter().zip(signals) {
        if plan.zone as usize == place && !plan.manual {
            let settled = settled_by_itself(run, own, verify, floor, now);
            if settled.saturating_add(run.site.profile().signal()) <= now {
                let is_shown = shows_zone(&run.face(now, zone.panel), zone);
                tally.note("single detector is shown", is_shown);
            }
        }
    }
}

// One detector of a zone of type B whose time has not ended.
fn note_lone(
    run: &Run,
    signals: &[Vec<bool>],
    place: usize,
    zone: &Zone,
    within: u64,
    now: u64,
    tally: &mut Tally,
) {
    let profile = run.site.profile();
    let floor = floor_before(run.site, place, Tick(now), &run.done).0;
    let cancelled = cancelled_before(run.site, place, Tick(now), &run.done).0;
    for (plan, own) in run.site.points.as_slice().iter().zip(signals) {
        if plan.zone as usize == place && !plan.manual {
            let first = held_from(own, floor.max(cancelled), now, profile.round());
            let is_late = first.saturating_add(profile.signal()) <= now;
            if first < NEVER && is_late && now <= first.saturating_add(within) {
                let face = run.face(now, zone.panel);
                let is_told = shows_zone(&face, zone) || has_zone(&face.firsts, zone);
                tally.note("lone zone is shown", is_told);
            }
        }
    }
}
