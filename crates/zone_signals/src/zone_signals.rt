ghost use Rattle.std.specs.Prelude.{◌≡◌, ◌<◌, [], List, Some, length, slice_get};
ghost use Rattle.zone_signals.specs.Telling.{TakesZone, TakesZones};

use crate::floors::Floors;
use crate::known::Known;
use crate::marks::{has_mark, mark_zones};
use crate::members::{Members, all_members};
use crate::signals::round_start;
use crate::undone::floor_of;
use crate::zone_settled::ZoneSettled;
use blocked_points::DoneOperation;
use point_runs::PointRun;
use site_types::{Rule, Site};
use std::alloc::Global;
use tick_units::{NoMemory, Tick};

/// Since when each zone has a signal that has ended and that no floor undid.
#[derive(Drop)]
pub struct ZoneSignals {
    floors: Floors,
    members: Vec<Members>,
    settled: Vec<ZoneSettled>,
    /// Which zones have a point that has just been held for a round.
    marks: Vec<bool>,
}

impl ZoneSignals {
    ghost use Rattle.std.specs.Prelude.{◌↔◌, IfOk};
    ghost use Rattle.site_types.specs.declared.retained.Retained.{Retained as RetainedOf};
    ghost use Rattle.site_types.specs.declared.site.Site.{Site as SiteOf};
    ghost use Rattle.site_types.specs.Valid.{IsValid};
    ghost use Rattle.panel_rules.specs.Due.{IsDue, IsDueByHand, IsDueOut};
    ghost use Rattle.blocked_points.specs.declared.done_operation.DoneOperation.{DoneOperation as DoneOperationOf};
    ghost use Rattle.blocked_points.specs.Operations.{AreDoneInOrder};
    ghost use Rattle.zone_signals.specs.Ended.{EndedCalls, EndedSignals, EndedSignalsOut};
    ghost use Rattle.zone_signals.specs.StandsFor.{StandsFor, TakesTick, TellsLeast, TellsWhenDue, TellsZone};

    /// Before the first tick.
    pub fn new(alloc: Global, site: &Site) -> Result<ZoneSignals, NoMemory>
        ensures { IfOk result (λ zones. (kept : RetainedOf) (operations : List DoneOperationOf)
            → IsValid site.now → AreDoneInOrder operations
            → StandsFor site.now kept operations [] zones) }
    {
        let floors = Floors::new(alloc, site)?;
        let members = all_members(alloc, site)?;
        let settled = vec![in alloc; ZoneSettled::NONE; site.zones.len()]?;
        let marks = vec![in alloc; false; site.zones.len()]?;
        Ok(ZoneSignals {
            floors,
            members,
            settled,
            marks,
        })
    }

    /// Goes on to a tick, with the runs of points as they stand after the tick before.
    pub fn take_tick(&mut self, site: &Site, done: &[DoneOperation], runs: &[PointRun], now: Tick)
        ensures { TakesTick site.now done.now runs.now now.0 self.old self.new }
    {
        self.floors.tick(site, done, now.0);
        mark_zones(&mut self.marks, site, runs, round_start(site, now.0));
        let known = Known {
            site,
            members: &self.members,
            runs,
            rows: self.floors.rows(),
            tick: now.0,
        };
        take_rounds(&mut self.settled, &known, &self.marks);
    }

    /// From which tick on a zone has a signal: of those that may be due the least.
    pub fn settled(&self, zone: usize) -> Option<u64>
        ensures least { (site : SiteOf) → TellsLeast EndedSignals site self.now zone result }
        ensures due { (site : SiteOf) → TellsWhenDue IsDue site self.now zone result }
    {
        let settled = self.zone(zone);
        settled.signal()
    }

    /// From which tick on a zone has a signal for outputs: of those that may be due the least.
    pub fn settled_out(&self, site: &Site, zone: usize) -> Option<u64>
        ensures least { TellsLeast EndedSignalsOut site.now self.now zone result }
        ensures due { TellsWhenDue IsDueOut site.now self.now zone result }
    {
        let settled = self.zone(zone);
        if waits_for_second(site, zone) {
            settled.release()
        } else {
            settled.signal()
        }
    }

    /// From which tick on a zone has a signal of a manual call point: of those that may be due the least.
    pub fn settled_by_hand(&self, zone: usize) -> Option<u64>
        ensures least { (site : SiteOf) → TellsLeast EndedCalls site self.now zone result }
        ensures due { (site : SiteOf) → TellsWhenDue IsDueByHand site self.now zone result }
    {
        let settled = self.zone(zone);
        settled.by_hand
    }

    fn zone(&self, zone: usize) -> ZoneSettled
        ensures { TellsZone self.now zone result }
    {
        match self.settled.get(zone) {
            None => ZoneSettled::NONE,
            Some(settled) => *settled,
        }
    }
}

// Takes the rounds that have ended before a tick.
fn take_rounds(settled: &mut [ZoneSettled], known: &Known, marks: &[bool])
    ensures { TakesZones known.now marks.now settled.old settled.new }
{
    for zone in 0..settled.len() {
        settled[zone] = zone_later(settled[zone], known, marks, zone);
    }
}

fn zone_later(settled: ZoneSettled, known: &Known, marks: &[bool], zone: usize) -> ZoneSettled
    ensures { zone < length known.now.site.now.zones
        → TakesZone known.now marks.now zone settled result }
{
    match known.site.zones.get(zone) {
        None => settled,
        Some(plan) => {
            let floor = floor_of(known.rows, zone);
            if floor >= known.tick.saturating_sub(1) {
                return ZoneSettled::NONE;
            }
            if !has_mark(marks, zone, plan.partner) {
                return settled;
            }
            settled.after_tick(known, zone, plan)
        }
    }
}

ghost use Rattle.std.specs.Prelude.{◌↔◌, true};
ghost use Rattle.site_types.specs.declared.rule.Rule.TheVariants.{C};
ghost use Rattle.coincidence_rules.specs.Places.{rule_of};

// Whether the outputs of a zone wait for a second point: it is of type C.
fn waits_for_second(site: &Site, zone: usize) -> bool
    ensures { (result ≡ true) ↔ (rule_of (slice_get site.now.zones zone) ≡ Some C) }
{
    match site.zones.get(zone) {
        None => false,
        Some(plan) => match plan.rule {
            Rule::Plain => false,
            Rule::A { .. } => false,
            Rule::B { .. } => false,
            Rule::C => true,
        },
    }
}
