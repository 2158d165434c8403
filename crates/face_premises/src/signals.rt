//! Since when a signal of a zone counts.

use crate::pairs::settled_by_two;
use crate::run::Run;
use crate::sought::Sought;
use crate::tracks::{NEVER, held_at, held_from, track};
use crate::wanted::Wanted;
use anyhow::Result;
use plain_history::floor_before;
use site_types::{Event, PieceState, Point, PointState, Rule};
use std::alloc::Global;
use tick_units::Tick;

/// Of each point, tick by tick, whether it was in alarm, reached since no piece of its loop was reported open or short
/// so far, and not blocked.
pub(crate) fn point_signals(alloc: Global, run: &Run) -> Result<Vec<Vec<bool>>> {
    let mut signals = Vec::new(alloc);
    for (place, point) in run.site.points.as_slice().iter().enumerate() {
        let alarm = track(alloc, run.moments, false, |event| match *event {
            Event::Point { point, state } if point as usize == place => {
                Some(state == PointState::Alarm)
            }
            _ => None,
        })?;
        let sound = track(alloc, run.moments, true, |event| match *event {
            Event::Cable {
                panel,
                line,
                state,
                ..
            } if panel == point.panel && line == point.line && state != PieceState::Sound => {
                Some(false)
            }
            _ => None,
        })?;
        let mut own = Vec::new(alloc);
        for tick in 0..=run.last {
            let is_free = !run.settings().is_blocked(place, Tick(tick));
            own.push(held_at(&alarm, tick) && held_at(&sound, tick) && is_free)?;
        }
        signals.push(own)?;
    }
    Ok(signals)
}

/// By zone and tick, since when a signal of the zone counts of those up to that tick.
pub(crate) fn settled_table(
    alloc: Global,
    run: &Run,
    signals: &[Vec<bool>],
    wanted: Wanted,
) -> Result<Vec<Vec<u64>>> {
    let mut table = Vec::new(alloc);
    for (place, zone) in run.site.zones.as_slice().iter().enumerate() {
        let mut ticks = Vec::new(alloc);
        for now in 0..=run.last {
            let floor = floor_before(run.site, place, Tick(now), &run.done).0;
            let sought = Sought {
                place,
                zone,
                floor,
                now,
                wanted,
            };
            let alone = settled_by_one(run, signals, &sought);
            let both = settled_by_two(alloc, run, signals, &sought)?;
            ticks.push(alone.min(both))?;
        }
        table.push(ticks)?;
    }
    Ok(table)
}

// The least tick since which one point of the zone alone signals.
fn settled_by_one(run: &Run, signals: &[Vec<bool>], sought: &Sought) -> u64 {
    let mut settled = NEVER;
    for (point, plan) in run.site.points.as_slice().iter().enumerate() {
        if plan.zone as usize == sought.place {
            let from = match signals.get(point) {
                Some(own) => settled_by_point(run, own, plan, sought),
                None => NEVER,
            };
            settled = settled.min(from);
        }
    }
    settled
}

fn settled_by_point(run: &Run, own: &[bool], plan: &Point, sought: &Sought) -> u64 {
    let (floor, now) = (sought.floor, sought.now);
    let held = held_from(own, floor, now, run.site.profile().round());
    match sought.zone.rule {
        _ if plan.manual => held,
        _ if sought.wanted == Wanted::ByHand => NEVER,
        Rule::Plain => held,
        Rule::C if sought.wanted == Wanted::Shown => held,
        Rule::A { verify, .. } => settled_by_itself(run, own, verify as u64, floor, now),
        _ => NEVER,
    }
}

/// Since when one detector of a zone of type A signals by itself.
pub(crate) fn settled_by_itself(run: &Run, own: &[bool], verify: u64, floor: u64, now: u64) -> u64 {
    let profile = run.site.profile();
    let two_rounds = profile.round().saturating_mul(2);
    let length = verify.saturating_add(two_rounds).saturating_sub(1);
    let first = held_from(own, floor, now, length);
    first
        .saturating_add(verify)
        .saturating_add(profile.verify())
}
