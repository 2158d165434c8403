//! The clauses on outputs.

use crate::markers::asks;
use crate::run::{Run, entry};
use crate::tally::Tally;
use crate::tracks::{held_at, run_up_to};
use anyhow::Result;
use face_text::Face;
use panel_settings::Setting;
use site_types::{Operation, Output, OutputKind, Rule, has_bit_32};
use std::alloc::Global;
use tick_units::Tick;

/// Notes what held of each output at the end of each tick.
pub(crate) fn note_outputs(
    alloc: Global,
    run: &Run,
    out: &[Vec<u64>],
    by_hand: &[Vec<u64>],
    tally: &mut Tally,
) -> Result<()> {
    for (place, output) in run.site.outputs.as_slice().iter().enumerate() {
        let asked = due_track(alloc, run, output, out, by_hand)?;
        let asked_by_hand = due_track(alloc, run, output, by_hand, by_hand)?;
        let signalled = signalled_track(alloc, run, output, out)?;
        let indicated = indicated_track(alloc, run, output)?;
        for now in 1..=run.last {
            let is_shown = shows_output(&run.face(now, output.panel), output);
            if is_shown {
                tally.note("on output is caused", true);
            }
            if !may_sound(run, place, output, now) {
                continue;
            }
            let delay = output.delay as u64;
            let is_asked_through = delay < now && run_up_to(&asked, now) > delay;
            if held_at(&asked_by_hand, now) || is_asked_through {
                tally.note("due output is on", is_shown);
            }
            if delay > 0 && is_asked_through {
                tally.note("due output with a delay is on", is_shown);
            }
            if delay == 0 && held_at(&signalled, now) {
                tally.note("signalled output is on", is_shown);
            }
            let ticks = run.site.profile().output();
            if delay == 0 && ticks < now && run_up_to(&indicated, now) > ticks {
                tally.note("indicated output is on", is_shown);
            }
        }
    }
    Ok(())
}

fn shows_output(face: &Face, output: &Output) -> bool {
    let bit = output.number.saturating_sub(1);
    bit < 32 && has_bit_32(face.outputs, bit)
}

// An output that isn't disabled, and no sounder of a panel at which a silence was done.
fn may_sound(run: &Run, place: usize, output: &Output, now: u64) -> bool {
    let is_sounder = matches!(output.kind, OutputKind::Sounder);
    let is_off = run
        .settings()
        .in_force(Setting::OutputOff(place), Tick(now));
    let was_silenced = run.done.iter().any(|done| done.panel == output.panel
        && done.operation == Operation::Silence);
    !is_off && !(is_sounder && was_silenced)
}

// Whether the zones that are due at the output's panel alone ask for it, tick by tick.
fn due_track(
    alloc: Global,
    run: &Run,
    output: &Output,
    released: &[Vec<u64>],
    by_hand: &[Vec<u64>],
) -> Result<Vec<bool>> {
    let mut asked = Vec::new(alloc);
    for now in 0..=run.last {
        let zones = due_zones(alloc, run, output.panel, released, now)?;
        let hands = due_zones(alloc, run, output.panel, by_hand, now)?;
        let marker = output.marker as usize;
        asked.push(asks(alloc, run.site, marker, &zones, &hands)?)?;
    }
    Ok(asked)
}

// The zones that are due at a panel by the ticks since which they signal.
fn due_zones(
    alloc: Global,
    run: &Run,
    panel: u8,
    settled: &[Vec<u64>],
    now: u64,
) -> Result<Vec<bool>> {
    let format = run.site.format as u64;
    let is_joined = run_up_to(&run.joined, now) > format.saturating_mul(24);
    let mut due = Vec::new(alloc);
    for (place, zone) in run.site.zones.as_slice().iter().enumerate() {
        let since = entry(settled, place, now);
        due.push(if zone.panel == panel {
            since.saturating_add(run.site.profile().signal()) <= now
        } else {
            is_joined && since.saturating_add(format.saturating_mul(40)) <= now
        })?;
    }
    Ok(due)
}

// Whether zones that signalled for long enough alone ask for the output, tick by tick.
fn signalled_track(
    alloc: Global,
    run: &Run,
    output: &Output,
    out: &[Vec<u64>],
) -> Result<Vec<bool>> {
    let profile = run.site.profile();
    let mut asked = Vec::new(alloc);
    for now in 0..=run.last {
        let is_joined = run_up_to(&run.joined, now) > profile.network();
        let mut zones = Vec::new(alloc);
        for (place, zone) in run.site.zones.as_slice().iter().enumerate() {
            let since = entry(out, place, now);
            zones.push(if zone.panel == output.panel {
                since.saturating_add(profile.signal()) <= now
            } else {
                is_joined && since.saturating_add(profile.network()) <= now
            })?;
        }
        asked.push(asks(alloc, run.site, output.marker as usize, &zones, &[])?)?;
    }
    Ok(asked)
}

// Whether the zones that the output's panel shows of its own, but those of type C, alone ask for it, tick by tick.
fn indicated_track(alloc: Global, run: &Run, output: &Output) -> Result<Vec<bool>> {
    let mut asked = Vec::new(alloc);
    for now in 0..=run.last {
        let face = run.face(now, output.panel);
        let own = match face.zones.get(output.panel.saturating_sub(1) as usize) {
            Some(mask) => *mask,
            None => 0,
        };
        let mut zones = Vec::new(alloc);
        for zone in run.site.zones.as_slice() {
            let bit = zone.number.saturating_sub(1);
            let is_own = zone.panel == output.panel && zone.rule != Rule::C;
            zones.push(is_own && bit < 32 && has_bit_32(own, bit))?;
        }
        asked.push(asks(alloc, run.site, output.marker as usize, &zones, &[])?)?;
    }
    Ok(asked)
}
