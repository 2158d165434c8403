ghost use Rattle.std.specs.Prelude.{◌≡◌, ◌≤◌, true};
ghost use Rattle.coincidence.specs.Parts.{StaysNoted, is_at_rest, point_begun, point_noted, stays_missing};
ghost use Rattle.coincidence.specs.Parts.{switch_after};
ghost use Rattle.site_types.specs.Profile.{missing_askings};

use site_types::{Heard, Point};
use tick_units::{Switch, Tick};

/// Silent askings in a row that make a point missing: `missing_askings` of the profile.
pub const MISSING_ASKINGS: u8 = 3;

/// What is kept of a point.
#[derive(Clone, Copy)]
pub struct PointWatch {
    /// The place of its zone.
    pub zone: u16,
    pub manual: bool,
    /// Whether it is disabled.
    pub off: Switch,
    /// How many of its last answers were silent, at most `MISSING_ASKINGS`.
    pub silent: u8,
    /// The stamp at which its answers began to count without a break and without a floor.
    pub run: Option<Tick>,
}

impl PointWatch {
    /// What is kept of a point at the start.
    pub fn new(point: &Point, off: bool) -> PointWatch
        ensures { result ≡ point_begun point.now off }
    {
        PointWatch {
            zone: point.zone,
            manual: point.manual,
            off: Switch::new(off),
            silent: 0,
            run: None,
        }
    }

    /// Takes note of an answer, of whether it counts, and of the floor before it.
    pub fn note(&mut self, heard: Heard, counted: bool, floor: Tick, stamp: Tick)
        ensures { self.new ≡ point_noted heard counted floor stamp self.old }
    {
        self.silent = silent_after(self.silent, heard);
        self.run = run_after(self.run, counted, floor, stamp);
    }

    /// Whether its run goes on with an answer, so that this leaves it as it is.
    pub fn stays_at(&self, heard: Heard, counted: bool, floor: Tick) -> bool
        ensures { result ≡ true → StaysNoted heard counted floor self.now }
    {
        let goes_on = match self.run {
            Some(first) => floor.0 < first.0,
            None => false,
        };
        goes_on && counted && self.silent == 0 && matches!(heard, Heard::Alarm)
    }

    pub fn is_missing(&self) -> bool
        ensures { result ≡ nat_le missing_askings self.now.silent }
    {
        self.silent >= MISSING_ASKINGS
    }

    /// Whether its last answer wasn't silent and didn't count, so that a quiet one leaves it as it is.
    pub fn is_at_rest(&self) -> bool
        ensures { result ≡ is_at_rest self.now }
    {
        self.silent == 0 && self.run.is_none()
    }

    /// Whether its last answers were silent, as many as make it missing, so that a silent one leaves it as it is.
    pub fn stays_missing(&self) -> bool
        ensures { result ≡ stays_missing self.now }
    {
        self.silent == MISSING_ASKINGS && self.run.is_none()
    }

    pub fn set_off(&mut self, off: bool, at: Tick)
        requires { self.old.off.since.0 < at.0 }
        ensures { self.new ≡ record self.old { off = switch_after off at self.old.off } }
    {
        self.off.set(off, at);
    }
}

ghost use Rattle.std.specs.Prelude.{nat_le, ◌<◌};
ghost use Rattle.coincidence.specs.Parts.{silent_then};
ghost use Rattle.coincidence_rules.specs.Kept.{run_then};

fn silent_after(silent: u8, heard: Heard) -> u8
    ensures { result ≡ silent_then heard silent }
{
    match heard {
        Heard::Silent => if silent < MISSING_ASKINGS {
            silent + 1
        } else {
            silent
        },
        Heard::Quiet | Heard::Alarm => 0,
    }
}

fn run_after(run: Option<Tick>, counted: bool, floor: Tick, stamp: Tick) -> Option<Tick>
    ensures { result ≡ run_then counted floor.0 stamp run }
{
    if !counted {
        return None;
    }
    match run {
        Some(first) => if floor.0 < first.0 { run } else { Some(stamp) },
        None => Some(stamp),
    }
}
