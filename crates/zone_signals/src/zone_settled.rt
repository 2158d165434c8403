ghost use Rattle.std.specs.Prelude.{◌≡◌, ◌<◌, Some, length, slice_get};
ghost use Rattle.zone_signals.specs.Ended.{EndedAlone, EndedCalls, EndedRounds, EndedSeconds};
ghost use Rattle.zone_signals.specs.Least.{earlier_of_ticks};
ghost use Rattle.zone_signals.specs.Telling.{KeepsLeast};

use crate::known::Known;
use crate::signals::{behind_start, call_ends, round_start};
use crate::zone_ends::{alone_ends, release_ends, round_ends};
use site_types::Zone;

/// From which tick on a zone has a signal that has ended and that no floor undid, by the kind of the signal.
#[derive(Clone, Copy)]
pub struct ZoneSettled {
    /// One of a manual call point.
    pub by_hand: Option<u64>,
    /// One that counts from the beginning of a round.
    pub round: Option<u64>,
    /// One of a single detector of a zone of type A.
    pub alone: Option<u64>,
    /// One of a second point for outputs of a zone of type C.
    pub second: Option<u64>,
}

impl ZoneSettled {
    ghost use Rattle.zone_signals.specs.Telling.{KeepsZone};

    /// The zone has no signal.
    pub const NONE: ZoneSettled = ZoneSettled {
        by_hand: None,
        round: None,
        alone: None,
        second: None,
    };

    /// The least of all.
    pub fn signal(&self) -> Option<u64>
        ensures { result ≡ earlier_of_ticks (earlier_of_ticks self.now.by_hand self.now.round)
            self.now.alone }
    {
        earlier_of(earlier_of(self.by_hand, self.round), self.alone)
    }

    /// The least of those for outputs of a zone of type C.
    pub fn release(&self) -> Option<u64>
        ensures { result ≡ earlier_of_ticks self.now.by_hand self.now.second }
    {
        earlier_of(self.by_hand, self.second)
    }

    /// What it is a tick later, where no floor came.
    pub fn after_tick(&self, known: &Known, zone: usize, plan: &Zone) -> ZoneSettled
        ensures { slice_get known.now.site.now.zones zone ≡ Some plan.now
            → KeepsZone known.now zone self.now result }
    {
        ZoneSettled {
            by_hand: call_since(self.by_hand, known, zone),
            round: round_since(self.round, known, zone, plan),
            alone: alone_since(self.alone, known, zone, plan),
            second: second_since(self.second, known, zone, plan),
        }
    }
}

fn call_since(old: Option<u64>, known: &Known, zone: usize) -> Option<u64>
    ensures { zone < length known.now.site.now.zones
        → KeepsLeast EndedCalls known.now zone old result }
{
    match old {
        Some(_) => old,
        None => {
            if call_ends(known, zone) {
                Some(round_start(known.site, known.tick))
            } else {
                None
            }
        }
    }
}

fn round_since(old: Option<u64>, known: &Known, zone: usize, plan: &Zone) -> Option<u64>
    ensures { slice_get known.now.site.now.zones zone ≡ Some plan.now
        → KeepsLeast EndedRounds known.now zone old result }
{
    match old {
        Some(_) => old,
        None => {
            if round_ends(known, zone, plan) {
                Some(round_start(known.site, known.tick))
            } else {
                None
            }
        }
    }
}

fn alone_since(old: Option<u64>, known: &Known, zone: usize, plan: &Zone) -> Option<u64>
    ensures { slice_get known.now.site.now.zones zone ≡ Some plan.now
        → KeepsLeast EndedAlone known.now zone old result }
{
    match old {
        Some(_) => old,
        None => {
            if alone_ends(known, zone, plan) {
                Some(behind_start(known.site, known.tick))
            } else {
                None
            }
        }
    }
}

fn second_since(old: Option<u64>, known: &Known, zone: usize, plan: &Zone) -> Option<u64>
    ensures { slice_get known.now.site.now.zones zone ≡ Some plan.now
        → KeepsLeast EndedSeconds known.now zone old result }
{
    match old {
        Some(_) => old,
        None => {
            if release_ends(known, zone, plan) {
                Some(round_start(known.site, known.tick))
            } else {
                None
            }
        }
    }
}

/// The earlier of two ticks, where there are some.
fn earlier_of(one: Option<u64>, other: Option<u64>) -> Option<u64>
    ensures { result ≡ earlier_of_ticks one other }
{
    match one {
        None => other,
        Some(tick) => match other {
            None => one,
            Some(second) => Some(tick.min(second)),
        },
    }
}
