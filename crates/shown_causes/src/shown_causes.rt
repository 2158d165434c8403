ghost use Rattle.std.specs.Prelude.{◌≡◌, ◌≤◌, ◌+◌, [], ◌∷◌, List, ℕ, length, IfOk};
ghost use Rattle.site_types.specs.declared.retained.Retained.{Retained as RetainedOf};
ghost use Rattle.site_types.specs.Valid.{IsValid};
ghost use Rattle.panel_rules.specs.Moments.{TickBlock};
ghost use Rattle.panel_rules.specs.Records.{AreOrdered};
ghost use Rattle.blocked_points.specs.declared.done_operation.DoneOperation.{DoneOperation as DoneOperationOf};
ghost use Rattle.blocked_points.specs.Operations.{AreDoneInOrder};

use crate::masks::set_zone;
use crate::told_faults::ToldFaults;
use blocked_points::DoneOperation;
use cause_effect::Facts;
use caused_zones::CausedZones;
use face_text::Timeline;
use joined_panels::JoinedPanels;
use point_runs::PointRun;
use site_types::{Site, Zone, with_bit_8};
use std::alloc::Global;
use tick_units::{NoMemory, Tick};

/// Until when zones were caused, and until when panels told a fault.
#[derive(Drop)]
pub struct ShownCauses {
    latest: Tick,
    /// In how many ticks a word comes to each joined panel.
    network: u64,
    caused: CausedZones,
    faults: ToldFaults,
    ghost some: { 1 ≤ network },
}

impl ShownCauses {
    ghost use Rattle.shown_causes.specs.Faults.{DoStepsRise};
    ghost use Rattle.shown_causes.specs.Heard.{StandsFor, TakesCauses, TellsAlarmHeard, TellsCallHeard};
    ghost use Rattle.shown_causes.specs.Heard.{TellsCallsHeard, TellsCaused, TellsFault, TellsFaults, TellsHeard};
    ghost use Rattle.shown_causes.specs.Heard.{TellsMayBeHeard, TellsShown, TellsZonesHeard};

    /// Before the first tick. The operations are all that were ever done, later ones among them.
    pub fn new(alloc: Global, site: &Site, timeline: &Timeline) -> Result<ShownCauses, NoMemory>
        requires { IsValid site.now }
        ensures { IfOk result (λ causes. (kept : RetainedOf) (operations : List DoneOperationOf)
            → AreDoneInOrder operations → DoStepsRise timeline.now.steps
            → StandsFor site.now kept operations timeline.now [] causes) }
    {
        let caused = CausedZones::new(alloc, site)?;
        let faults = ToldFaults::new(timeline);
        Ok(ShownCauses {
            latest: Tick(0),
            network: 40 * site.format as u64,
            caused,
            faults,
        })
    }

    /// Takes the next tick: of the operations those that come into force, which points signal, and the text's step.
    pub fn take_tick(
        &mut self,
        site: &Site,
        now: Tick,
        done: &[DoneOperation],
        runs: &[PointRun],
        timeline: &Timeline,
    )
        ensures { TakesCauses site.now now.0 done.now runs.now timeline.now self.old self.new }
    {
        self.caused.take_tick(site, now, done, runs);
        self.faults.take_tick(now, timeline);
        self.latest = now;
    }

    /// Whether a zone that a panel shows can have a cause.
    pub fn can_be_shown(&self, site: &Site, joined: &JoinedPanels, panel: u8, zone: usize) -> bool
        requires site { IsValid site.now }
        requires panel { (1 ≤ panel) × (panel ≤ 8) }
        ensures { TellsShown self.now joined.now site.now panel zone result }
    {
        match site.zones.get(zone) {
            None => false,
            Some(plan) => {
                if plan.panel == panel {
                    self.is_caused_now(zone)
                } else {
                    self.is_alarm_heard(joined, plan, zone, panel)
                }
            }
        }
    }

    /// All that a panel may have heard: causes of zones, and faults.
    pub fn facts_heard(&self, site: &Site, joined: &JoinedPanels, panel: u8) -> Facts
        requires site { IsValid site.now }
        requires panel { (1 ≤ panel) × (panel ≤ 8) }
        ensures { TellsHeard self.now joined.now site.now panel result }
    {
        Facts {
            zones: self.zones_heard(site, joined, panel),
            manual: self.calls_heard(site, joined, panel),
            faults: self.faults_heard(joined, panel),
        }
    }

    // The zones that may have been heard to be in alarm.
    fn zones_heard(&self, site: &Site, joined: &JoinedPanels, panel: u8) -> [u32; 8]
        requires site { IsValid site.now }
        requires panel { (1 ≤ panel) × (panel ≤ 8) }
        ensures { TellsZonesHeard self.now joined.now site.now panel result }
    {
        let mut masks = [0; 8];
        for place in 0..site.zones.len() {
            match site.zones.get(place) {
                None => {}
                Some(plan) => {
                    let heard = self.is_alarm_heard(joined, plan, place, panel);
                    set_zone(&mut masks, plan, heard);
                }
            }
        }
        masks
    }

    // The zones of which the panel has heard of an alarm by hand, as masks.
    fn calls_heard(&self, site: &Site, joined: &JoinedPanels, panel: u8) -> [u32; 8]
        requires site { IsValid site.now }
        requires panel { (1 ≤ panel) × (panel ≤ 8) }
        ensures { TellsCallsHeard self.now joined.now site.now panel result }
    {
        let mut masks = [0; 8];
        for place in 0..site.zones.len() {
            match site.zones.get(place) {
                None => {}
                Some(plan) => {
                    let heard = self.is_call_heard(joined, plan, place, panel);
                    set_zone(&mut masks, plan, heard);
                }
            }
        }
        masks
    }

    // Whether a zone was caused to be in alarm at the last tick.
    fn is_caused_now(&self, zone: usize) -> bool
        ensures { TellsCaused self.now zone result }
    {
        let last = self.caused.last_alarm(zone);
        last > 0 && last == self.latest.0
    }

    // Whether a panel may have heard a zone of another one to be in alarm.
    fn is_alarm_heard(&self, joined: &JoinedPanels, plan: &Zone, zone: usize, panel: u8) -> bool
        requires source { (1 ≤ plan.now.panel) × (plan.now.panel ≤ 8) }
        requires panel { (1 ≤ panel) × (panel ≤ 8) }
        ensures { TellsAlarmHeard self.now joined.now plan.now zone panel result }
    {
        let last = self.caused.last_alarm(zone);
        last > 0 && self.may_be_heard(joined, plan.panel, panel, last)
    }

    fn is_call_heard(&self, joined: &JoinedPanels, plan: &Zone, zone: usize, panel: u8) -> bool
        requires source { (1 ≤ plan.now.panel) × (plan.now.panel ≤ 8) }
        requires panel { (1 ≤ panel) × (panel ≤ 8) }
        ensures { TellsCallHeard self.now joined.now plan.now zone panel result }
    {
        let last = self.caused.last_call(zone);
        last > 0 && self.may_be_heard(joined, plan.panel, panel, last)
    }

    // The panels that may have been heard to tell a fault.
    fn faults_heard(&self, joined: &JoinedPanels, panel: u8) -> u8
        requires { (1 ≤ panel) × (panel ≤ 8) }
        ensures { TellsFaults self.now joined.now panel result }
    {
        let mut mask = 0;
        for place in 0..8 {
            let heard = self.is_fault_heard(joined, place + 1, panel);
            mask = with_bit_8(mask, place, heard);
        }
        mask
    }

    fn is_fault_heard(&self, joined: &JoinedPanels, source: u8, panel: u8) -> bool
        requires source { (1 ≤ source) × (source ≤ 8) }
        requires panel { (1 ≤ panel) × (panel ≤ 8) }
        ensures { TellsFault self.now joined.now source panel result }
    {
        match self.faults.last_of(source, self.latest) {
            None => false,
            Some(last) => self.may_be_heard(joined, source, panel, last),
        }
    }

    // Whether a panel may have heard the word of another one of some tick.
    fn may_be_heard(&self, joined: &JoinedPanels, source: u8, panel: u8, stamp: u64) -> bool
        requires source { (1 ≤ source) × (source ≤ 8) }
        requires panel { (1 ≤ panel) × (panel ≤ 8) }
        ensures { TellsMayBeHeard self.now joined.now source panel stamp result }
    {
        let oldest = self.latest.0.saturating_sub(self.network);
        oldest <= stamp || !joined.are_joined_since(source, panel, oldest + 1)
    }
}
