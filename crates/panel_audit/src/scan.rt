ghost use Rattle.std.specs.Prelude.{◌≡◌, length, IfOk};
ghost use Rattle.site_types.specs.Valid.{IsValid};
ghost use Rattle.cause_effect.specs.Stands.{IsPlanOf};

use crate::baseless::{baseless_output, nothing_heard};
use crate::broken::Broken;
use crate::case::Case;
use crate::dark::dark_output;
use crate::hidden::hidden_zone;
use crate::judge::Judge;
use crate::numbered::Numbered;
use crate::numbers::{output_numbers, zone_numbers};
use crate::uncaused::uncaused_zone;
use asked_markers::AskedMarkers;
use audit_rules::AuditRule;
use due_zones::DueZones;
use std::alloc::Global;
use tick_units::NoMemory;

/// What it takes to find the first breach after a tick.
#[derive(Drop)]
pub(crate) struct Scan {
    pub(crate) zones: Vec<Numbered>,
    pub(crate) outputs: Vec<Numbered>,
    pub(crate) zone_marks: Vec<bool>,
    pub(crate) output_marks: Vec<bool>,
    /// The markers of each panel, over all that it may have heard.
    pub(crate) heard: [AskedMarkers; 8],
    ghost zones_marked: { length zone_marks.items ≡ length zones.items },
    ghost outputs_marked: { length output_marks.items ≡ length outputs.items },
}

impl Scan {
    ghost use Rattle.panel_audit.specs.Scanning.{FindsFirst, ScanStands};

    pub(crate) fn new(alloc: Global, case: &Case) -> Result<Scan, NoMemory>
        requires site { IsValid case.now.site.now }
        requires plan { IsPlanOf case.now.site.now case.now.plan.now }
        ensures { IfOk result (ScanStands case.now.site.now) }
    {
        let zones = zone_numbers(alloc, case.site)?;
        let outputs = output_numbers(alloc, case.site)?;
        let zone_marks = vec![in alloc; false; zones.len()]?;
        let output_marks = vec![in alloc; false; outputs.len()]?;
        Ok(Scan {
            zones,
            outputs,
            zone_marks,
            output_marks,
            heard: nothing_heard(case.plan),
        })
    }

    /// The first breach after a tick, with what an auditor keeps then and whether an answer of it is unfounded.
    pub(crate) fn first_broken(
        &mut self,
        case: &Case,
        judge: &Judge,
        due: &[DueZones; 8],
        is_unfounded: bool,
    ) -> Option<Broken>
        requires site { IsValid case.now.site.now }
        requires plan { IsPlanOf case.now.site.now case.now.plan.now }
        ensures stands { ScanStands case.now.site.now self.old
            → ScanStands case.now.site.now self.new }
        ensures finds { FindsFirst case.now.site.now case.now.timeline.now case.now.done.now
            judge.now due.now is_unfounded self.old result }
    {
        if is_unfounded {
            return Some(Broken::ANSWER);
        }
        let site = case.site;
        let faces = judge.shown.faces(case.timeline);
        if let Some(found) = hidden_zone(site, &self.zones, &mut self.zone_marks, due, faces) {
            return Some(Broken::zone(AuditRule::Indication, &self.zones, found));
        }
        if let Some(place) = dark_output(
            site,
            &self.outputs,
            &mut self.output_marks,
            &judge.dues,
            &judge.excused,
            faces,
        ) {
            return Some(Broken::output(AuditRule::Output, &self.outputs, place));
        }
        if let Some(found) = uncaused_zone(
            site,
            &self.zones,
            &mut self.zone_marks,
            &judge.causes,
            &judge.joined,
            faces,
        ) {
            return Some(Broken::zone(AuditRule::Zone, &self.zones, found));
        }
        let place = baseless_output(
            site,
            case.plan,
            &self.outputs,
            &mut self.output_marks,
            &judge.causes,
            &judge.joined,
            faces,
            &mut self.heard,
        )?;
        Some(Broken::output(AuditRule::Cause, &self.outputs, place))
    }
}
