//! The clauses on settings.

use crate::asked::Asked;
use crate::run::Run;
use crate::tally::Tally;
use face_text::Face;
use panel_settings::{Setting, setting_of, value_set};
use plain_history::{Moment, is_on};
use site_types::{Point, PointSet, Site, has_bit_32};
use tick_units::Tick;

/// Notes which settings were in force at the end of each tick, and which operations were accepted by then.
pub(crate) fn note_settings(run: &Run, tally: &mut Tally) {
    for now in 1..=run.last {
        for place in 0..run.site.points.len() {
            note_setting(run, Setting::PointOff(place), now, tally);
        }
        for place in 0..run.site.zones.len() {
            note_setting(run, Setting::ZoneOff(place), now, tally);
            note_setting(run, Setting::InTest(place), now, tally);
        }
        for place in 0..run.site.outputs.len() {
            note_setting(run, Setting::OutputOff(place), now, tally);
        }
        for before in 0..run.site.panels {
            note_setting(
                run,
                Setting::DelaysOff(before.saturating_add(1)),
                now,
                tally,
            );
        }
    }
    for asked in &run.asked {
        note_accepted(run, asked, tally);
    }
}

// A setting that is in force.
fn note_setting(run: &Run, setting: Setting, now: u64, tally: &mut Tally) {
    if run.settings().in_force(setting, Tick(now)) {
        let face = run.face(now, panel_of(run.site, setting));
        tally.note(
            "settings are shown",
            shows_setting(run.site, &face, setting),
        );
    }
}

// An operation on a setting that Keep took and did, without a failure in its tick and the next one.
fn note_accepted(run: &Run, asked: &Asked, tally: &mut Tally) {
    let Some(setting) = setting_of(asked.panel, asked.operation) else {
        return;
    };
    if asked.done == 0 || has_failed(run, asked.tick) {
        return;
    }
    let disablement = run.site.profile().disablement();
    for now in asked.tick.saturating_add(2)..=run.last {
        if was_set_between(run, setting, asked.done, now) {
            return;
        }
        let face = run.face(now, asked.panel);
        let is_kept = shows_setting(run.site, &face, setting) == value_set(asked.operation);
        tally.note("accepted is shown", is_kept);
        if asked.tick.saturating_add(disablement) <= now {
            tally.note("disablement is shown", is_kept);
        }
    }
}

// Whether another operation on a setting was done after a tick and before another one.
fn was_set_between(run: &Run, setting: Setting, first: u64, now: u64) -> bool {
    run.done.iter().any(|done| is_on(setting, done) && first < done.tick.0 && done.tick.0 < now)
}

// Whether Keep's turn failed in a tick or the next one.
fn has_failed(run: &Run, tick: u64) -> bool {
    let mut now: u64 = 0;
    let mut failed = false;
    for moment in run.moments {
        match *moment {
            Moment::Began => now = now.saturating_add(1),
            Moment::Kept { failed: true } => {
                failed = failed || now == tick || now == tick.saturating_add(1);
            }
            _ => {}
        }
    }
    failed
}

// The panel whose face shows a setting.
fn panel_of(site: &Site, setting: Setting) -> u8 {
    let panel = match setting {
        Setting::PointOff(place) => site.points.get(place).map(|point| point.panel),
        Setting::ZoneOff(place) | Setting::InTest(place) => {
            site.zones.get(place).map(|zone| zone.panel)
        }
        Setting::OutputOff(place) => site.outputs.get(place).map(|output| output.panel),
        Setting::DelaysOff(panel) | Setting::Counter(panel) => Some(panel),
    };
    panel.unwrap_or(0)
}

// Whether a face shows a setting.
fn shows_setting(site: &Site, face: &Face, setting: Setting) -> bool {
    match setting {
        Setting::PointOff(place) => match site.points.get(place) {
            Some(point) => has_point(&face.points_off, point),
            None => false,
        },
        Setting::ZoneOff(place) => match site.zones.get(place) {
            Some(zone) => has_number(face.zones_off, zone.number),
            None => false,
        },
        Setting::InTest(place) => match site.zones.get(place) {
            Some(zone) => has_number(face.test, zone.number),
            None => false,
        },
        Setting::OutputOff(place) => match site.outputs.get(place) {
            Some(output) => has_number(face.outputs_off, output.number),
            None => false,
        },
        Setting::DelaysOff(_) => face.delays_off,
        Setting::Counter(_) => false,
    }
}

/// Whether a set has a point.
pub(crate) fn has_point(set: &PointSet, point: &Point) -> bool {
    point.line >= 1
        && point.line <= 4
        && point.address >= 1
        && point.address <= 192
        && set.contains(point.line, point.address)
}

fn has_number(mask: u32, number: u8) -> bool {
    let bit = number.saturating_sub(1);
    bit < 32 && has_bit_32(mask, bit)
}
