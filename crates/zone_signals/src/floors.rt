ghost use Rattle.std.specs.Prelude.{◌≡◌, ◌≤◌, ℕ, List, length, slice_get, take};
ghost use Rattle.blocked_points.specs.declared.done_operation.DoneOperation.{DoneOperation as DoneOperationOf};

use crate::zone_floor::ZoneFloor;
use blocked_points::{DoneOperation, count_before};
use site_types::{Item, Operation, Site};
use std::alloc::Global;
use tick_units::{NoMemory, Tick};

/// When the signals of zones were last undone, by the operations that were done before a tick.
#[derive(Drop)]
pub struct Floors {
    rows: Vec<ZoneFloor>,
    /// How many operations are taken.
    taken: usize,
}

impl Floors {
    ghost use Rattle.std.specs.Prelude.{IfOk};
    ghost use Rattle.site_types.specs.declared.site.Site.{Site as SiteOf};
    ghost use Rattle.blocked_points.specs.Operations.{AreDoneInOrder, done_newest_first as all_done_of};
    ghost use Rattle.zone_signals.specs.Floors.{AreFloors, FloorsStand};

    /// Before the first tick.
    pub fn new(alloc: Global, site: &Site) -> Result<Floors, NoMemory>
        ensures { IfOk result (λ floors. (operations : List DoneOperationOf)
            → AreDoneInOrder operations → FloorsStand site.now operations 0 floors) }
    {
        let rows = vec![in alloc; ZoneFloor::NONE; site.zones.len()]?;
        Ok(Floors { rows, taken: 0 })
    }

    /// Goes on to a tick.
    pub fn tick(&mut self, site: &Site, done: &[DoneOperation], now: u64)
        ensures { (tick : ℕ) → tick ≤ now → FloorsStand site.now done.now tick self.old
            → FloorsStand site.now done.now now self.new }
    {
        let end = count_before(done, self.taken, Tick(now));
        take_each(&mut self.rows, site, done, self.taken, end);
        self.taken = end;
    }

    /// The floor of each zone, by their places.
    pub fn rows(&self) -> &[ZoneFloor]
        ensures { (site : SiteOf) (operations : List DoneOperationOf) (tick : ℕ)
            → FloorsStand site operations tick self.now
            → AreFloors site (all_done_of operations) tick result.now }
    {
        &self.rows
    }
}

ghost use Rattle.std.specs.Prelude.{◌∷◌};
ghost use Rattle.site_types.specs.Done.{Done};
ghost use Rattle.blocked_points.specs.Operations.{as_done, done_newest_first};
ghost use Rattle.zone_signals.specs.Floors.{RowStands, RowsStand};

// Takes the operations from a place on and before another.
fn take_each(rows: &mut [ZoneFloor], site: &Site, done: &[DoneOperation], from: usize, end: usize)
    requires { end ≤ length done.now }
    ensures { from ≤ end
        → RowsStand site.now (done_newest_first (take from done.now)) rows.old
        → RowsStand site.now (done_newest_first (take end done.now)) rows.new }
{
    for place in from..end {
        take_operation(rows, site, &done[place]);
    }
}

fn take_operation(rows: &mut [ZoneFloor], site: &Site, done: &DoneOperation)
    ensures { (before : List Done) → RowsStand site.now before rows.old
        → RowsStand site.now (as_done done.now ∷ before) rows.new }
{
    for zone in 0..rows.len() {
        rows[zone] = row_after(rows[zone], site, zone, done);
    }
}

fn row_after(row: ZoneFloor, site: &Site, zone: usize, done: &DoneOperation) -> ZoneFloor
    ensures { (before : List Done) → RowStands site.now before zone row
        → RowStands site.now (as_done done.now ∷ before) zone result }
{
    ZoneFloor {
        floor: later_if(
            is_floor(site, zone, done.panel, done.operation),
            done.tick.0,
            row.floor,
        ),
        cancelled: later_if(is_cancel(zone, done.operation), done.tick.0, row.cancelled),
    }
}

ghost use Rattle.std.specs.Prelude.{max, if◌then◌else◌};

fn later_if(moves: bool, tick: u64, before: u64) -> u64
    ensures { result ≡ (if moves then max tick before else before) }
{
    if moves { tick.max(before) } else { before }
}

ghost use Rattle.site_types.specs.Done.{is_cancel as is_cancelling, is_floor as is_floor_of};

fn is_floor(site: &Site, zone: usize, panel: u8, operation: Operation) -> bool
    ensures { result ≡ is_floor_of site.now zone panel operation }
{
    match operation {
        Operation::Reset => is_panel_of(site, zone, panel),
        Operation::Disable(Item::Zone(other)) => other as usize == zone,
        Operation::Disable(Item::Point(_)) => false,
        Operation::Disable(Item::Output(_)) => false,
        Operation::Test(other) => other as usize == zone,
        Operation::Mute => false,
        Operation::Override => false,
        Operation::Silence => false,
        Operation::Resound => false,
        Operation::Cancel(_) => false,
        Operation::Enable(_) => false,
        Operation::Untest(_) => false,
        Operation::Delays(_) => false,
        Operation::Clear => false,
    }
}

ghost use Rattle.site_types.specs.Done.{is_of_panel};

fn is_panel_of(site: &Site, zone: usize, panel: u8) -> bool
    ensures { result ≡ is_of_panel panel (slice_get site.now.zones zone) }
{
    match site.zones.get(zone) {
        None => false,
        Some(plan) => panel == plan.panel,
    }
}

fn is_cancel(zone: usize, operation: Operation) -> bool
    ensures { result ≡ is_cancelling zone operation }
{
    match operation {
        Operation::Cancel(other) => other as usize == zone,
        _ => false,
    }
}
