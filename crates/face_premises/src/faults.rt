//! The clauses on faults.

use crate::run::Run;
use crate::settings::has_point;
use crate::tally::Tally;
use crate::tracks::{held_at, run_up_to, track};
use anyhow::Result;
use panel_settings::Setting;
use plain_history::Moment;
use site_types::{Event, PieceState, PointState, SupplyKind, has_bit_8};
use std::alloc::Global;
use tick_units::Tick;

/// Notes what held of points, supplies, panels, pieces and links at the end of each tick.
pub(crate) fn note_faults(alloc: Global, run: &Run, tally: &mut Tally) -> Result<()> {
    note_points(alloc, run, tally)?;
    for before in 0..run.site.panels {
        let panel = before.saturating_add(1);
        let waits = run.site.waits;
        for (kind, bit, wait) in [
            (SupplyKind::Mains, 0, waits.mains),
            (SupplyKind::Standby, 1, waits.standby),
            (SupplyKind::Voltage, 2, waits.voltage),
            (SupplyKind::Charger, 3, waits.charger),
        ] {
            note_supply(alloc, run, panel, kind, bit, wait, tally)?;
        }
    }
    note_pieces(alloc, run, tally)?;
    note_links(alloc, run, tally)
}

// Points that were gone.
fn note_points(alloc: Global, run: &Run, tally: &mut Tally) -> Result<()> {
    for (place, plan) in run.site.points.as_slice().iter().enumerate() {
        let gone = track(alloc, run.moments, false, |event| match *event {
            Event::Point { point, state } if point as usize == place => {
                Some(state == PointState::Gone)
            }
            _ => None,
        })?;
        for now in 1..=run.last {
            let settings = run.settings();
            let is_off = settings.in_force(Setting::PointOff(place), Tick(now))
                || settings.in_force(Setting::ZoneOff(plan.zone as usize), Tick(now));
            if run_up_to(&gone, now) > run.site.profile().fault() && !is_off {
                let missing = run.face(now, plan.panel).faults.missing;
                tally.note("away point is missing", has_point(&missing, plan));
            }
        }
    }
    Ok(())
}

// A supply of a panel that was bad.
fn note_supply(
    alloc: Global,
    run: &Run,
    panel: u8,
    kind: SupplyKind,
    bit: u8,
    wait: u16,
    tally: &mut Tally,
) -> Result<()> {
    let was_bad = track(alloc, run.moments, false, |event| match *event {
        Event::Supply {
            panel: other,
            kind: told,
            bad,
        } if other == panel && told == kind => Some(bad),
        _ => None,
    })?;
    let ticks = run.site.profile().fault().saturating_add(wait as u64);
    for now in 1..=run.last {
        if run_up_to(&was_bad, now) >= ticks {
            let supply = run.face(now, panel).faults.supply;
            tally.note("bad supply is shown", bit < 8 && has_bit_8(supply, bit));
        }
    }
    Ok(())
}

// Pieces that were reported open or short, and stood so at the end of that tick.
fn note_pieces(alloc: Global, run: &Run, tally: &mut Tally) -> Result<()> {
    let mut tick: u64 = 0;
    for moment in run.moments {
        match *moment {
            Moment::Began => tick = tick.saturating_add(1),
            Moment::Happened(
                Event::Cable {
                    panel,
                    line,
                    piece,
                    state,
                },
            ) => {
                let stands = piece_track(alloc, run, panel, line, piece, state)?;
                if held_at(&stands, tick) {
                    note_piece(run, panel, line, state, tick, tally);
                }
            }
            _ => {}
        }
    }
    Ok(())
}

// Whether a piece is in a state by the latest report on it.
fn piece_track(
    alloc: Global,
    run: &Run,
    panel: u8,
    line: u8,
    piece: u8,
    state: PieceState,
) -> Result<Vec<bool>> {
    track(alloc, run.moments, false, |event| match *event {
        Event::Cable {
            panel: other_panel,
            line: other_line,
            piece: other,
            state: told,
        } if other_panel == panel && other_line == line && other == piece => Some(told == state),
        _ => None,
    })
}

fn note_piece(run: &Run, panel: u8, line: u8, state: PieceState, tick: u64, tally: &mut Tally) {
    let faults = run.face(tick, panel).faults;
    let bit = line.saturating_sub(1);
    match state {
        PieceState::Sound => {}
        PieceState::Open => {
            tally.note(
                "open piece is shown",
                bit < 8 && has_bit_8(faults.broken, bit),
            )
        }
        PieceState::Short => {
            tally.note(
                "short piece is shown",
                bit < 8 && has_bit_8(faults.shorted, bit),
            )
        }
    }
}

// Links that were down, and panels that were cut off by one on each way.
fn note_links(alloc: Global, run: &Run, tally: &mut Tally) -> Result<()> {
    let mut down: Vec<Vec<bool>> = Vec::new(alloc);
    for link in 0..9 {
        down.push(track(alloc, run.moments, false, |event| match *event {
            Event::Link { link: other, up } if other == link => Some(!up),
            _ => None,
        })?)?;
    }
    for now in 1..=run.last {
        for before in 0..run.site.panels {
            note_panel(run, &down, before.saturating_add(1), now, tally);
        }
    }
    Ok(())
}

// The two links of a panel, and the panels that are cut off from it.
fn note_panel(run: &Run, down: &[Vec<bool>], panel: u8, now: u64, tally: &mut Tally) {
    let panels = run.site.panels as u64;
    let at = panel as u64;
    let shown = run.face(now, panel).faults;
    for step in 0..2 {
        let link = link_on(panels, at.saturating_add(step).saturating_sub(1), 0);
        if is_down(down, link, now, 1) {
            tally.note("link is shown", has_place(shown.links, link));
        }
    }
    for other in 1..=panels {
        if is_cut_off(run, down, at, other, now) {
            tally.note("cut off panel is silent", has_place(shown.silent, other));
        }
    }
}

// Whether the bit of a number is set.
fn has_place(mask: u8, number: u64) -> bool {
    let bit = number.saturating_sub(1);
    bit < 8 && has_bit_8(mask, bit as u8)
}

// The link on the way up from a panel after so many, where panel 0 is the last one.
fn link_on(panels: u64, panel: u64, step: u64) -> u64 {
    let place = panel
        .saturating_add(panels)
        .saturating_add(step)
        .saturating_sub(1);
    if panels == 0 {
        0
    } else {
        (place % panels).saturating_add(1)
    }
}

// Whether a link was down for so many ticks.
fn is_down(down: &[Vec<bool>], link: u64, now: u64, ticks: u64) -> bool {
    match down.get(link as usize) {
        Some(own) => run_up_to(own, now) >= ticks,
        None => false,
    }
}

// Whether one link on each of the two ways between two panels was down for the ticks of a fault.
fn is_cut_off(run: &Run, down: &[Vec<bool>], panel: u64, other: u64, now: u64) -> bool {
    let ticks = run.site.profile().fault().saturating_add(1);
    is_way_down(run, down, other, panel, now, ticks)
        && is_way_down(run, down, panel, other, now, ticks)
}

fn is_way_down(run: &Run, down: &[Vec<bool>], from: u64, to: u64, now: u64, ticks: u64) -> bool {
    let panels = run.site.panels as u64;
    let mut at = from;
    for _step in 0..panels {
        if at == to {
            return false;
        }
        if is_down(down, link_on(panels, at, 0), now, ticks) {
            return true;
        }
        at = link_on(panels, at, 1);
    }
    false
}
