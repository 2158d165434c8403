//! Which signals of a zone end just now. A signal that does counts from where the rounds began that have just ended.

ghost use Rattle.std.specs.Prelude.{◌≡◌, ◌+◌, ◌-◌, ◌≤◌, ◌<◌, ℕ, length};
ghost use Rattle.site_types.specs.Profile.{round_of};
ghost use Rattle.panel_rules.specs.Due.{
  CallPointSignals,
  DetectorSignals,
  DetectorsSignal,
  PairSignals,
  PointSignals,
  SecondSignals,
};
ghost use Rattle.zone_signals.specs.Types.{IsOfOnePoint, IsTypeA, IsTypeB, IsTypeC};
ghost use Rattle.zone_signals.specs.Telling.{TellsEnd};

use crate::kind::Kind;
use crate::known::Known;
use crate::pairs::pair_held;
use crate::undone::{floor_of, partner_floor, partner_undone, too_early, undone};
use crate::zones_held::{one_held, one_lasts, two_held};
use site_types::Site;

/// The tick from which the rounds last that have just ended, 0 where none has.
pub fn round_start(site: &Site, now: u64) -> u64
    ensures { result ≡ now - round_of site.now.format }
{
    now.saturating_sub(site.profile().round())
}

/// The tick behind that one.
pub fn behind_start(site: &Site, now: u64) -> u64
    ensures { 1 ≤ round_of site.now.format → 1 ≤ now
        → result ≡ now - round_of site.now.format + 1 }
{
    round_start(site, now).saturating_add(1)
}

/// A manual call point.
pub fn call_ends(known: &Known, zone: usize) -> bool
    ensures { zone < length known.now.site.now.zones
        → TellsEnd CallPointSignals known.now zone
        (known.now.tick - round_of known.now.site.now.format) result }
{
    let start = round_start(known.site, known.tick);
    let floor = floor_of(known.rows, zone);
    if floor >= start {
        return false;
    }
    one_held(known, zone, Kind::CallPoint, start - 1)
}

/// A point of a zone of type none or C.
pub fn point_ends(known: &Known, zone: usize) -> bool
    ensures { zone < length known.now.site.now.zones → IsOfOnePoint known.now.site.now zone
        → TellsEnd PointSignals known.now zone
        (known.now.tick - round_of known.now.site.now.format) result }
{
    let start = round_start(known.site, known.tick);
    let floor = floor_of(known.rows, zone);
    if floor >= start {
        return false;
    }
    one_held(known, zone, Kind::Any, start - 1)
}

/// Whether the signal of a single detector of a zone of type A ends now. It counts from a tick later than others that
/// end now.
pub fn detector_ends(known: &Known, zone: usize, verify: u16) -> bool
    ensures { (within : ℕ) → IsTypeA known.now.site.now zone verify within
        → TellsEnd DetectorSignals known.now zone
        (known.now.tick - round_of known.now.site.now.format + 1) result }
{
    let round = known.site.profile().round();
    let first = known
        .tick
        .saturating_sub((verify as u64 + (round + round)).saturating_sub(1));
    let floor = floor_of(known.rows, zone);
    if floor >= first {
        return false;
    }
    one_lasts(known, zone, first)
}

/// Two detectors of a zone of type A.
pub fn detectors_end(known: &Known, zone: usize, within: u16) -> bool
    ensures { (verify : ℕ) → IsTypeA known.now.site.now zone verify within
        → TellsEnd DetectorsSignal known.now zone
        (known.now.tick - round_of known.now.site.now.format) result }
{
    let start = round_start(known.site, known.tick);
    if start == 0 {
        return false;
    }
    let floor = floor_of(known.rows, zone);
    let after = floor.max(too_early(known.tick, within));
    two_held(known, zone, Kind::Detector, after, start - 1)
}

/// A pair of detectors for a zone of type B.
pub fn pair_ends(known: &Known, zone: usize, partner: Option<u16>, within: u16) -> bool
    ensures { IsTypeB known.now.site.now zone partner within
        → TellsEnd PairSignals known.now zone
        (known.now.tick - round_of known.now.site.now.format) result }
{
    let start = round_start(known.site, known.tick);
    if start == 0 {
        return false;
    }
    let early = too_early(known.tick, within);
    let own = undone(known.rows, zone).max(early);
    let both = own.max(partner_undone(known.rows, partner));
    pair_held(known, zone, partner, Kind::Detector, own, both, start - 1)
}

/// A second point for a zone of type C.
pub fn second_ends(known: &Known, zone: usize, partner: Option<u16>) -> bool
    ensures { IsTypeC known.now.site.now zone partner
        → TellsEnd SecondSignals known.now zone
        (known.now.tick - round_of known.now.site.now.format) result }
{
    let start = round_start(known.site, known.tick);
    if start == 0 {
        return false;
    }
    let own = floor_of(known.rows, zone);
    let both = own.max(partner_floor(known.rows, partner));
    pair_held(known, zone, partner, Kind::Any, own, both, start - 1)
}
