//! What panel 1 shows of findings, of what is told from outside of its points, and of operations.

ghost use Rattle.site_types.specs.Valid.{IsValid};

use crate::hold_rows::{apply_at, findings_at, outside_at};
use anyhow::{Result, bail};
use panel_conditions::{Hold, Outside};
use site_types::{Buzzer, Point, PointSet, Retained, Site};
use std::alloc::Global;
use tick_units::Tick;
use trial_cases::{History, Lines, say_zones};

/// What is shown in each tick that is named. Such a tick has a turn, and no other.
pub(crate) fn hold(alloc: Global, site: &Site, line: &str) -> Result<String>
    requires { IsValid site.now }
{
    let history = History::read(alloc, line)?;
    let Ok(mut hold) = Hold::new(alloc, site, 1, &Retained::empty()) else {
        bail!("no memory");
    };
    let mut outside = Outside::default();
    let mut lines = Lines::new(alloc);
    for tick in history.ticks.iter() {
        outside = outside_at(&history, *tick, outside)?;
        let mut findings = findings_at(alloc, &history, *tick)?;
        hold.turn(Tick(*tick), &mut findings, &outside);
        apply_at(site, &history, *tick, &mut hold)?;
        say_shown(&mut lines, site, *tick, &hold);
    }
    lines.done()
}

fn say_shown(lines: &mut Lines, site: &Site, tick: u64, hold: &Hold) {
    lines.count("    tick ", tick);
    lines.say(": alarm ");
    say_zones(lines, site, 1, hold.zones());
    lines.say(", first ");
    say_zones(lines, site, 1, hold.word().first);
    lines.say(match hold.buzzer() {
        Buzzer::Off => ", buzzer off",
        Buzzer::Fault => ", buzzer fault",
        Buzzer::Fire => ", buzzer fire",
    });
    lines.count(", entries ", hold.counter_entries());
    lines.say(", missing");
    say_missing(lines, site, &hold.faults().missing);
    lines.say("\n");
}

fn say_missing(lines: &mut Lines, site: &Site, missing: &PointSet) {
    if *missing == PointSet::default() {
        lines.say(" nothing");
    }
    for point in site.points.as_slice() {
        if is_missing(point, missing) {
            lines.say(" ");
            lines.say(point.name.as_str());
        }
    }
}

fn is_missing(point: &Point, missing: &PointSet) -> bool {
    let has_line = point.line >= 1 && point.line <= 4;
    let has_address = point.address >= 1 && point.address <= 192;
    has_line && has_address && missing.contains(point.line, point.address)
}
