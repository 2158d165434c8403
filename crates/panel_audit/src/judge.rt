ghost use Rattle.std.specs.Prelude.{◌≡◌, List, length, IfOk};
ghost use Rattle.site_types.specs.declared.retained.Retained.{Retained as RetainedOf};
ghost use Rattle.site_types.specs.Valid.{IsValid};
ghost use Rattle.cause_effect.specs.Stands.{IsPlanOf};

use crate::case::Case;
use crate::rows::{fill_rows, no_rows};
use crate::shown_now::ShownNow;
use due_outputs::DueOutputs;
use due_zones::{DueZones, LeastSignals, due_at_each};
use excused_outputs::ExcusedOutputs;
use joined_panels::JoinedPanels;
use shown_causes::ShownCauses;
use signal_points::SignalPoints;
use site_types::{Event, Retained};
use std::alloc::Global;
use tick_units::{NoMemory, Tick};
use zone_signals::ZoneSignals;

/// What an auditor keeps from tick to tick.
#[derive(Drop)]
pub(crate) struct Judge {
    pub(crate) signals: SignalPoints,
    pub(crate) least: ZoneSignals,
    /// From which tick on each zone has a signal, by places.
    pub(crate) rows: Vec<LeastSignals>,
    pub(crate) joined: JoinedPanels,
    pub(crate) dues: DueOutputs,
    pub(crate) excused: ExcusedOutputs,
    pub(crate) causes: ShownCauses,
    pub(crate) shown: ShownNow,
}

impl Judge {
    ghost use Rattle.panel_audit.specs.Judging.{Begins, TakesTick};

    /// Before the first tick.
    pub(crate) fn new(alloc: Global, case: &Case, kept: &Retained) -> Result<Judge, NoMemory>
        requires site { IsValid case.now.site.now }
        requires plan { IsPlanOf case.now.site.now case.now.plan.now }
        ensures { IfOk result (Begins case.now.site.now kept.now case.now.timeline.now
            case.now.done.now) }
    {
        Ok(Judge {
            signals: SignalPoints::new(alloc, case.site, kept)?,
            least: ZoneSignals::new(alloc, case.site)?,
            rows: no_rows(alloc, case.site.zones.len())?,
            joined: JoinedPanels::new(case.site),
            dues: DueOutputs::new(alloc, case.site, case.plan)?,
            excused: ExcusedOutputs::new(alloc, case.site, kept)?,
            causes: ShownCauses::new(alloc, case.site, case.timeline)?,
            shown: ShownNow::OPENED,
        })
    }

    /// Takes the next tick with its events, and tells which zones are due at each panel then.
    pub(crate) fn take_tick(&mut self, case: &Case, now: Tick, events: &[Event]) -> [DueZones; 8]
        requires site { IsValid case.now.site.now }
        requires plan { IsPlanOf case.now.site.now case.now.plan.now }
        requires rows { length self.old.rows.items ≡ length case.now.site.now.zones }
        ensures rows { length self.new.rows.items ≡ length case.now.site.now.zones }
        ensures takes { TakesTick case.now.site.now case.now.timeline.now case.now.done.now now.0
            events.now result self.old self.new }
    {
        let site = case.site;
        self.least
            .take_tick(site, case.done, self.signals.runs(), now);
        self.signals.take_tick(site, now, case.done, events);
        self.joined.take_tick(now, events);
        self.excused.tick(case.done, now);
        self.causes
            .take_tick(site, now, case.done, self.signals.runs(), case.timeline);
        fill_rows(&mut self.rows, site, &self.least);
        let due = due_at_each(site, &self.joined, now, &self.rows);
        self.dues.take_tick(site, case.plan, now, &due);
        self.shown.take_tick(case.timeline.steps.as_slice(), now);
        due
    }
}
