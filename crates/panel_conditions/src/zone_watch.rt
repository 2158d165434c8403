ghost use Rattle.std.specs.Prelude.{◌≡◌, ◌<◌, ◌&&◌, ℕ, nat_lt, if◌then◌else◌};
ghost use Rattle.site_types.specs.Done.{is_cancel};
ghost use Rattle.panel_conditions.specs.Parts.{first_shows, on_watched, raises, stamp_if, zone_done, zone_shows};
ghost use Rattle.panel_conditions.specs.Parts.{TellsPlainly, zone_told};

use crate::sign::Sign;
use coincidence_rules::Finding;
use site_types::{Item, Operation, has_bit_32};
use tick_units::{LastDone, Tick};

/// What is kept of the zone with one number.
#[derive(Clone, Copy)]
pub struct ZoneWatch {
    /// Its place in the site's list, if the panel has a zone with this number.
    pub place: Option<usize>,
    /// Its bit in masks: its number less one.
    pub bit: u8,
    /// How long a first state lasts, for type B.
    pub within: Option<u16>,
    /// The last reset, disabling or test.
    pub floor: LastDone,
    pub cancelled: LastDone,
    /// The latest stamp at which an answer confirmed it; 0 for none, as below.
    pub confirmed: Tick,
    /// The latest stamp at which a manual call point of it confirmed it.
    pub called: Tick,
    /// The latest stamp at which an answer released it.
    pub released: Tick,
    /// The latest stamp at which an answer of a detector counted.
    pub told: Tick,
}

impl ZoneWatch {
    ghost use Rattle.panel_conditions.specs.Stands.{no_zone_yet};

    /// A zone of which nothing was told.
    pub fn new(place: Option<usize>, bit: u8, within: Option<u16>) -> ZoneWatch
        ensures { result ≡ no_zone_yet place bit within }
    {
        ZoneWatch {
            place,
            bit,
            within,
            floor: LastDone::never(),
            cancelled: LastDone::never(),
            confirmed: Tick(0),
            called: Tick(0),
            released: Tick(0),
            told: Tick(0),
        }
    }

    /// Takes note of what a finding tells by a bit: that of its number.
    pub fn take(&mut self, bit: u8, finding: &Finding)
        requires { bit < 32 }
        ensures { self.new ≡ zone_told bit finding.now self.old }
    {
        let manual = has_bit_32(finding.manual, bit);
        let told = has_bit_32(finding.counted, bit) && !manual;
        let confirmed = has_bit_32(finding.confirmed, bit);
        let released = has_bit_32(finding.released, bit);
        raise_if(confirmed, finding.stamp, &mut self.confirmed);
        raise_if(manual, finding.stamp, &mut self.called);
        raise_if(released, finding.stamp, &mut self.released);
        raise_if(told, finding.stamp, &mut self.told);
    }

    /// Takes note of a finding of a stamp that confirms the zone plainly.
    pub fn confirm(&mut self, stamp: Tick)
        ensures { (bit : ℕ) (finding : Finding) → finding.stamp ≡ stamp → TellsPlainly bit finding
            → self.new ≡ zone_told bit finding self.old }
    {
        raise_if(true, stamp, &mut self.confirmed);
        raise_if(true, stamp, &mut self.released);
        raise_if(true, stamp, &mut self.told);
    }

    /// Takes note of an operation that was done in a tick.
    pub fn apply(&mut self, operation: &Operation, at: Tick)
        ensures { self.new ≡ zone_done operation.now at self.old }
    {
        let (moved, cancelled) = match self.place {
            None => (false, false),
            Some(place) => (moves_floor(operation, place), cancels(operation, place)),
        };
        self.floor.raise_if(moved, at);
        self.cancelled.raise_if(cancelled, at);
    }

    /// Whether the zone shows a sign at a tick.
    pub fn shows(&self, sign: Sign, now: Tick) -> bool
        ensures { result ≡ zone_shows sign now.0 self.now }
    {
        if self.place.is_none() {
            return false;
        }
        let floor = self.floor.before(now);
        match sign {
            Sign::Alarm => floor.0 < self.confirmed.0,
            Sign::Manual => floor.0 < self.called.0,
            Sign::Released => floor.0 < self.released.0,
            Sign::First => self.is_first(now),
        }
    }

    // Whether the zone is in first state at a tick.
    fn is_first(&self, now: Tick) -> bool
        ensures { result ≡ first_shows now.0 self.now self.now.within }
    {
        let floor = self.floor.before(now);
        let cancelled = self.cancelled.before(now);
        match self.within {
            None => false,
            Some(within) => {
                !(floor.0 < self.confirmed.0)
                    && (floor.0 < self.told.0
                        && cancelled.0 < self.told.0
                        && now.0.saturating_sub(self.told.0) <= within as u64)
            }
        }
    }
}

// Makes a stamp the latest one, where something was told at it and it is later.
fn raise_if(on: bool, stamp: Tick, latest: &mut Tick)
    ensures { latest.new ≡ stamp_if on stamp latest.old }
{
    if on && latest.0 < stamp.0 {
        *latest = stamp;
    }
}

// Whether an operation moves the floor of the zone at a place of its panel.
fn moves_floor(operation: &Operation, place: usize) -> bool
    ensures { result ≡ raises place operation.now }
{
    match *operation {
        Operation::Reset => true,
        Operation::Disable(Item::Zone(zone)) | Operation::Test(zone) => zone as usize == place,
        _ => false,
    }
}

fn cancels(operation: &Operation, place: usize) -> bool
    ensures { result ≡ is_cancel place operation.now }
{
    match *operation {
        Operation::Cancel(zone) => zone as usize == place,
        _ => false,
    }
}
