//! When the signals of a zone were last undone.

ghost use Rattle.std.specs.Prelude.{◌≡◌, ◌+◌, ◌-◌, ◌<◌, ℕ, List, Some, length, max};
ghost use Rattle.site_types.specs.declared.site.Site.{Site as SiteOf};
ghost use Rattle.site_types.specs.Done.{Done, cancelled_before, floor_before};
ghost use Rattle.zone_signals.specs.Floors.{AreFloors};

use crate::zone_floor::ZoneFloor;

/// The last tick from which on a first round is too early for a second one that ends now.
pub fn too_early(now: u64, within: u16) -> u64
    ensures { result ≡ now - (within + 2) }
{
    now.saturating_sub(within as u64 + 2)
}

/// The tick of a zone's last floor.
pub fn floor_of(rows: &[ZoneFloor], zone: usize) -> u64
    ensures { (site : SiteOf) (done : List Done) (now : ℕ) → AreFloors site done now rows.now
        → zone < length site.zones → result ≡ floor_before site zone now done }
{
    match rows.get(zone) {
        None => 0,
        Some(row) => row.floor,
    }
}

/// The tick of its last floor or cancelling.
pub fn undone(rows: &[ZoneFloor], zone: usize) -> u64
    ensures { (site : SiteOf) (done : List Done) (now : ℕ) → AreFloors site done now rows.now
        → zone < length site.zones → result
        ≡ max (floor_before site zone now done) (cancelled_before zone now done) }
{
    match rows.get(zone) {
        None => 0,
        Some(row) => row.floor.max(row.cancelled),
    }
}

/// The tick of a partner's last floor, 0 for no partner.
pub fn partner_floor(rows: &[ZoneFloor], partner: Option<u16>) -> u64
    ensures { (site : SiteOf) (done : List Done) (now other : ℕ) → AreFloors site done now rows.now
        → other < length site.zones → partner ≡ Some other
        → result ≡ floor_before site other now done }
{
    match partner {
        None => 0,
        Some(other) => floor_of(rows, other as usize),
    }
}

/// The tick of its last floor or cancelling.
pub fn partner_undone(rows: &[ZoneFloor], partner: Option<u16>) -> u64
    ensures { (site : SiteOf) (done : List Done) (now other : ℕ) → AreFloors site done now rows.now
        → other < length site.zones → partner ≡ Some other → result
        ≡ max (floor_before site other now done) (cancelled_before other now done) }
{
    match partner {
        None => 0,
        Some(other) => undone(rows, other as usize),
    }
}
