ghost use Rattle.std.specs.Prelude.{◌≤◌, [], List, IfOk};
ghost use Rattle.site_types.specs.declared.retained.Retained.{Retained as RetainedOf};
ghost use Rattle.site_types.specs.Valid.{IsValid};
ghost use Rattle.blocked_points.specs.declared.done_operation.DoneOperation.{DoneOperation as DoneOperationOf};
ghost use Rattle.blocked_points.specs.Operations.{AreDoneInOrder};

use crate::caused_parts::CausedParts;
use blocked_points::{DoneOperation, count_before};
use point_runs::PointRun;
use site_types::Site;
use std::alloc::Global;
use tick_units::{NoMemory, Tick};

/// Until when each zone of a site was caused to be in alarm.
#[derive(Drop)]
pub struct CausedZones {
    latest: Tick,
    /// How many ticks a round takes.
    round: u64,
    /// How many operations have been taken.
    taken: usize,
    parts: CausedParts,
    ghost some: { 1 ≤ round },
}

impl CausedZones {
    ghost use Rattle.caused_zones.specs.Stands.{StandsFor, TakesNextTick, TellsAlarm, TellsCall};

    /// Before the first tick nothing is caused. The operations are all that were ever done, later ones among them.
    pub fn new(alloc: Global, site: &Site) -> Result<CausedZones, NoMemory>
        requires { IsValid site.now }
        ensures { IfOk result (λ caused. (kept : RetainedOf) (operations : List DoneOperationOf)
            → AreDoneInOrder operations → StandsFor site.now kept operations [] caused) }
    {
        let parts = CausedParts::new(alloc, site)?;
        Ok(CausedZones {
            latest: Tick(0),
            round: 12 * site.format as u64,
            taken: 0,
            parts,
        })
    }

    /// Takes the next tick: of the operations those that come into force, and which points signal.
    pub fn take_tick(&mut self, site: &Site, now: Tick, done: &[DoneOperation], runs: &[PointRun])
        ensures { TakesNextTick site.now now.0 done.now runs.now self.old self.new }
    {
        let end = count_before(done, self.taken, now);
        self.parts.undo_each(site, done, self.taken, end);
        self.parts.answer(site, self.round, now, runs);
        self.taken = end;
        self.latest = now;
    }

    /// The latest tick by now at which a zone was caused to be in alarm, 0 where there is none.
    pub fn last_alarm(&self, zone: usize) -> u64
        ensures { TellsAlarm self.now zone result }
    {
        self.parts.last_alarm(zone, self.latest.0)
    }

    /// The latest tick by now at which a zone was caused to be in alarm by hand, 0 where there is none.
    pub fn last_call(&self, zone: usize) -> u64
        ensures { TellsCall self.now zone result }
    {
        self.parts.last_call(zone, self.latest.0)
    }
}
