ghost use Rattle.std.specs.Prelude.{◌≡◌, ◌<◌, ◌≤◌, ◌∷◌, ℕ, List, length, slice_index_or};
ghost use Rattle.site_types.specs.declared.retained.Retained.{Retained as RetainedOf};
ghost use Rattle.site_types.specs.declared.site.Site.{Site as SiteOf};
ghost use Rattle.site_types.specs.Done.{Done};
ghost use Rattle.panel_rules.specs.Moments.{Moment as MomentOf, TickBlock, tick_of};
ghost use Rattle.blocked_points.specs.declared.done_operation.DoneOperation.{DoneOperation as DoneOperationOf};
ghost use Rattle.blocked_points.specs.Operations.{as_done};
ghost use Rattle.caused_zones.specs.declared.cause.Cause.{Cause as CauseOf};
ghost use Rattle.caused_zones.specs.Causes.{last_caused};

use crate::cause::Cause;
use crate::judging::{judge_alarms, judge_calls};
use crate::marking::{note_answers, some_signal};
use crate::point_mark::PointMark;
use crate::undoing::{undo_causes, undo_marks};
use blocked_points::DoneOperation;
use point_runs::PointRun;
use site_types::Site;
use std::alloc::Global;
use tick_units::{NoMemory, Tick};

/// What is kept of points and zones, by their places.
#[derive(Drop)]
pub struct CausedParts {
    marks: Vec<PointMark>,
    alarms: Vec<Cause>,
    by_hand: Vec<Cause>,
}

impl CausedParts {
    ghost use Rattle.std.specs.Prelude.{[], IfOk};
    ghost use Rattle.caused_zones.specs.Stands.{PartsTellAlarm, PartsTellCall};
    ghost use Rattle.caused_zones.specs.Stands.{PartsAfter, PartsStand, TakesTickAnswers, TakesOperations};

    /// Nothing was answered.
    pub fn new(alloc: Global, site: &Site) -> Result<CausedParts, NoMemory>
        ensures { IfOk result (λ parts. (kept : RetainedOf) (operations : List DoneOperationOf)
            → PartsAfter site.now kept operations 0 [] parts) }
    {
        let marks = vec![in alloc; PointMark::none(); site.points.len()]?;
        let alarms = vec![in alloc; Cause::none(); site.zones.len()]?;
        let by_hand = vec![in alloc; Cause::none(); site.zones.len()]?;
        Ok(CausedParts {
            marks,
            alarms,
            by_hand,
        })
    }

    /// Takes the operations from a place on and before another.
    pub fn undo_each(&mut self, site: &Site, done: &[DoneOperation], from: usize, end: usize)
        requires { end ≤ length done.now }
        ensures { TakesOperations site.now done.now from end self.old self.new }
    {
        for place in from..end {
            self.undo(site, &done[place]);
        }
    }

    // Takes an operation of the last tick.
    fn undo(&mut self, site: &Site, done: &DoneOperation)
        ensures { (kept : RetainedOf) (all taken : List Done) (before : List MomentOf)
            → done.now.tick.0 ≡ tick_of before → PartsStand site.now kept all taken before self.old
            → PartsStand site.now kept all (as_done done.now ∷ taken) before self.new }
    {
        undo_marks(&mut self.marks, site, done);
        undo_causes(&mut self.alarms, site, done);
        undo_causes(&mut self.by_hand, site, done);
    }

    /// Takes the answers of the next tick.
    pub fn answer(&mut self, site: &Site, round: u64, now: Tick, runs: &[PointRun])
        requires { 1 ≤ round }
        ensures { TakesTickAnswers site.now round now.0 runs.now self.old self.new }
    {
        if some_signal(runs) {
            note_answers(&mut self.marks, site, round, now, runs);
            judge_alarms(&mut self.alarms, &self.marks, site, now);
            judge_calls(&mut self.by_hand, &self.marks, site, now);
        }
    }

    /// The latest tick by now at which a zone was caused to be in alarm, 0 where there is none.
    pub fn last_alarm(&self, zone: usize, now: u64) -> u64
        ensures { PartsTellAlarm self.now zone now result }
    {
        last_of(&self.alarms, zone, now)
    }

    /// The latest tick by now at which a zone was caused to be in alarm by hand, 0 where there is none.
    pub fn last_call(&self, zone: usize, now: u64) -> u64
        ensures { PartsTellCall self.now zone now result }
    {
        last_of(&self.by_hand, zone, now)
    }
}

fn last_of(causes: &[Cause], zone: usize, now: u64) -> u64
    ensures { (other : CauseOf) → zone < length causes.now
        → result ≡ last_caused now (slice_index_or causes.now zone other) }
{
    match causes.get(zone) {
        None => 0,
        Some(cause) => cause.last(now),
    }
}
