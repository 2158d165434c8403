ghost use Rattle.std.specs.Prelude.{◌≡◌};
ghost use Rattle.site_types.specs.Done.{cancelled_before as last_cancelling, floor_before as last_floor};
ghost use Rattle.site_types.specs.Done.{muted_before as last_mute};
ghost use Rattle.plain_history.specs.Histories.{all_done};

use crate::done::Done;
use site_types::{Item, Operation, Site, Zone};
use tick_units::Tick;

/// What operations leave whose last tick is asked for.
#[derive(Clone, Copy)]
pub(crate) enum Mark {
    /// A floor of a zone, by its place.
    Floor(usize),
    /// A cancelling of a zone.
    Cancel(usize),
    /// A mute of a panel.
    Mute(u8),
}

/// The tick of the last floor of a zone before a tick, else 0: a reset of its panel, its disabling or its test.
pub fn floor_before(site: &Site, zone: usize, tick: Tick, done: &[Done]) -> Tick
    ensures { result.0 ≡ last_floor site.now zone tick.0 (all_done done.now) }
{
    latest_before(site, Mark::Floor(zone), tick, done)
}

/// The tick of the last cancelling of a zone before a tick, else 0.
pub fn cancelled_before(site: &Site, zone: usize, tick: Tick, done: &[Done]) -> Tick
    ensures { result.0 ≡ last_cancelling zone tick.0 (all_done done.now) }
{
    latest_before(site, Mark::Cancel(zone), tick, done)
}

/// The tick of the last mute of a panel before a tick, else 0.
pub fn muted_before(site: &Site, panel: u8, tick: Tick, done: &[Done]) -> Tick
    ensures { result.0 ≡ last_mute panel tick.0 (all_done done.now) }
{
    latest_before(site, Mark::Mute(panel), tick, done)
}

ghost use Rattle.site_types.specs.Done.{latest_before as latest_of};
ghost use Rattle.plain_history.specs.Settings.{leaves as leaves_mark};

// The latest tick before a tick with an operation that leaves a mark, else 0.
fn latest_before(site: &Site, mark: Mark, tick: Tick, done: &[Done]) -> Tick
    ensures { result.0 ≡ latest_of (leaves_mark site.now mark) tick.0 (all_done done.now) }
{
    let mut latest = 0;
    for one in done {
        latest = latest_after(site, mark, tick, one, latest);
    }
    Tick(latest)
}

ghost use Rattle.std.specs.Prelude.{◌&&◌, if◌then◌else◌, max, nat_lt, option_copied};
ghost use Rattle.site_types.specs.Done.{is_cancel as is_cancelling, is_floor as is_floor_of, is_mute as is_muting};
ghost use Rattle.site_types.specs.Done.{is_of_panel as is_of_panel_by};
ghost use Rattle.plain_history.specs.Histories.{done_of};

// The latest tick after one more operation.
fn latest_after(site: &Site, mark: Mark, tick: Tick, done: &Done, before: u64) -> u64
    ensures { result ≡ (if leaves_mark site.now mark (done_of done.now)
        && nat_lt done.now.tick.0 tick.0 then max done.now.tick.0 before else before) }
{
    if leaves(site, mark, done) && done.tick.0 < tick.0 {
        done.tick.0.max(before)
    } else {
        before
    }
}

fn leaves(site: &Site, mark: Mark, done: &Done) -> bool
    ensures { result ≡ leaves_mark site.now mark (done_of done.now) }
{
    match mark {
        Mark::Floor(zone) => is_floor(site, zone, done.panel, done.operation),
        Mark::Cancel(zone) => is_cancel(zone, done.operation),
        Mark::Mute(panel) => done.panel == panel && is_mute(done.operation),
    }
}

fn is_floor(site: &Site, zone: usize, panel: u8, operation: Operation) -> bool
    ensures { result ≡ is_floor_of site.now zone panel operation }
{
    match operation {
        Operation::Reset => is_of_panel(panel, site.zones.get(zone)),
        Operation::Disable(Item::Zone(other)) | Operation::Test(other) => other as usize == zone,
        _ => false,
    }
}

fn is_of_panel(panel: u8, zone: Option<&Zone>) -> bool
    ensures { result ≡ is_of_panel_by panel (option_copied zone.entry) }
{
    match zone {
        None => false,
        Some(zone) => panel == zone.panel,
    }
}

fn is_cancel(zone: usize, operation: Operation) -> bool
    ensures { result ≡ is_cancelling zone operation }
{
    match operation {
        Operation::Cancel(other) => other as usize == zone,
        _ => false,
    }
}

fn is_mute(operation: Operation) -> bool
    ensures { result ≡ is_muting operation }
{
    matches!(operation, Operation::Mute)
}
