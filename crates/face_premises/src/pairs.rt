//! Since when two points of a zone, or one of it and one of its partner, signal together.

use crate::run::Run;
use crate::sought::Sought;
use crate::tracks::{NEVER, held_from};
use crate::wanted::Wanted;
use anyhow::Result;
use plain_history::{cancelled_before, floor_before};
use site_types::{Rule, Zone};
use std::alloc::Global;
use tick_units::Tick;

/// A point that was held for a round.
#[derive(Clone, Copy)]
struct Held {
    zone: u16,
    manual: bool,
    first: u64,
}

/// The least tick since which a second point is held after a first one, as the zone's type asks for it.
pub(crate) fn settled_by_two(
    alloc: Global,
    run: &Run,
    signals: &[Vec<bool>],
    sought: &Sought,
) -> Result<u64> {
    let (place, zone) = (sought.place, sought.zone);
    if sought.wanted == Wanted::ByHand || !may_pair(zone.rule, sought.wanted) {
        return Ok(NEVER);
    }
    let mut held: Vec<Held> = Vec::new(alloc);
    let round = run.site.profile().round();
    for (plan, own) in run.site.points.as_slice().iter().zip(signals) {
        let is_near = plan.zone as usize == place || zone.partner == Some(plan.zone);
        let first = held_from(own, sought.floor, sought.now, round);
        if is_near && first < NEVER {
            held.push(Held {
                zone: plan.zone,
                manual: plan.manual,
                first,
            })?;
        }
    }
    let mut settled = NEVER;
    for (at, one) in held.iter().enumerate() {
        for (other_at, other) in held.iter().enumerate() {
            if at != other_at && is_pair(run, place, zone, one, other) {
                settled = settled.min(other.first);
            }
        }
    }
    Ok(settled)
}

// Types A and B count pairs, type C for outputs alone.
fn may_pair(rule: Rule, wanted: Wanted) -> bool {
    match rule {
        Rule::Plain => false,
        Rule::A { .. } | Rule::B { .. } => true,
        Rule::C => wanted == Wanted::Out,
    }
}

// Whether the second point makes a pair with the first for the zone.
fn is_pair(run: &Run, place: usize, zone: &Zone, one: &Held, other: &Held) -> bool {
    let round = run.site.profile().round();
    let end = other.first.saturating_add(round);
    let is_own = one.zone as usize == place || other.zone as usize == place;
    let is_in_time = |within: u16| {
        let window = one.first.saturating_add(within as u64);
        !one.manual && !other.manual && end <= window.saturating_add(1)
    };
    is_own
        && one.first <= other.first
        && match zone.rule {
            Rule::Plain => false,
            Rule::A { within, .. } => is_in_time(within),
            Rule::B { within } => {
                is_in_time(within)
                    && is_free(run, one.zone, one.first, end)
                    && is_free(run, other.zone, one.first, end)
            }
            Rule::C => {
                is_free(run, one.zone, one.first, end) && is_free(run, other.zone, one.first, end)
            }
        }
}

// Whether a zone has neither floor nor cancelling from a tick on and before another.
fn is_free(run: &Run, zone: u16, first: u64, end: u64) -> bool {
    let floor = floor_before(run.site, zone as usize, Tick(end), &run.done).0;
    let cancelled = cancelled_before(run.site, zone as usize, Tick(end), &run.done).0;
    floor < first && cancelled < first
}
