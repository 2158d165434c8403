ghost use Rattle.std.specs.Prelude.{◌≡◌, ◌+◌, [], ◌∷◌, List, length, IfOk};
ghost use Rattle.site_types.specs.declared.retained.Retained.{Retained as RetainedOf};
ghost use Rattle.site_types.specs.declared.site.Site.{Site as SiteOf};
ghost use Rattle.site_types.specs.Done.{Done};
ghost use Rattle.site_types.specs.Valid.{IsValid};
ghost use Rattle.cause_effect.specs.Stands.{IsPlanOf};

use crate::output_run::OutputRun;
use crate::panel_markers::PanelMarkers;
use cause_effect::Plan;
use due_zones::DueZones;
use excused_outputs::ExcusedOutputs;
use site_types::{Output, Site};
use std::alloc::Global;
use tick_units::{NoMemory, Tick};

/// Since when outputs are due to be asked.
#[derive(Drop)]
pub struct DueOutputs {
    latest: Tick,
    /// By panel, panel 1 first.
    panels: [PanelMarkers; 8],
    /// By the outputs' places.
    runs: Vec<OutputRun>,
}

impl DueOutputs {
    ghost use Rattle.due_outputs.specs.DueOn.{TellsDueOn};
    ghost use Rattle.due_outputs.specs.Stands.{StandsFor, TakesDue, TellsDueOutput};

    /// Before the first tick.
    pub fn new(alloc: Global, site: &Site, plan: &Plan) -> Result<DueOutputs, NoMemory>
        requires { IsPlanOf site.now plan.now }
        ensures { IfOk result (λ due. (kept : RetainedOf) (done : List Done)
            → StandsFor site.now kept done [] due) }
    {
        Ok(DueOutputs {
            latest: Tick(0),
            panels: [PanelMarkers::new(plan); 8],
            runs: no_runs(alloc, site.outputs.len())?,
        })
    }

    /// Takes the zones that are due at each panel at the end of the next tick.
    pub fn take_tick(&mut self, site: &Site, plan: &Plan, now: Tick, due: &[DueZones; 8])
        requires { IsPlanOf site.now plan.now }
        ensures { TakesDue site.now now.0 due.now self.old self.new }
    {
        self.latest = now;
        go_over_each(&mut self.panels, plan, due);
        take_runs(&mut self.runs, site, &self.panels, now.0);
    }

    /// Whether an output is due by hand, or has been due for as long as its delay.
    pub fn is_due(&self, place: usize, output: &Output) -> bool
        ensures { TellsDueOutput self.now place output.now result }
    {
        match self.runs.get(place) {
            None => false,
            Some(run) => run.is_over(self.latest.0, output.delay),
        }
    }

    /// Whether an output is due to be on, and neither disabled nor a sounder of a panel that was silenced.
    pub fn is_due_on(&self, excused: &ExcusedOutputs, place: usize, output: &Output) -> bool
        ensures { TellsDueOn self.now excused.now place output.now result }
    {
        if excused.excuses(place, output) {
            false
        } else {
            self.is_due(place, output)
        }
    }
}

ghost use Rattle.due_outputs.specs.Solved.{HaveGone, HaveSolved};
ghost use Rattle.due_outputs.specs.Runs.{AreNoRuns, TakeRuns};

fn no_runs(alloc: Global, count: usize) -> Result<Vec<OutputRun>, NoMemory>
    ensures { IfOk result (λ runs. AreNoRuns count runs.items) }
{
    let mut runs = Vec::with_capacity(alloc, count)?;
    for _place in 0..count {
        runs.push(OutputRun::NONE)?;
    }
    Ok(runs)
}

// The markers of each panel go over to the zones that are due there.
fn go_over_each(panels: &mut [PanelMarkers; 8], plan: &Plan, due: &[DueZones; 8])
    ensures { (site : SiteOf) → IsPlanOf site plan.now → HaveSolved site panels.old
        → HaveGone site due.now panels.new }
{
    for place in 0..8_u8 {
        let markers = &mut panels[place as usize];
        markers.take(plan, &due[place as usize]);
    }
}

// Each output's run goes on by one tick.
fn take_runs(runs: &mut [OutputRun], site: &Site, panels: &[PanelMarkers; 8], now: u64)
    requires { IsValid site.now }
    ensures { length runs.old ≡ length site.now.outputs
        → TakeRuns site.now panels.now now runs.old runs.new }
{
    let count = runs.len().min(site.outputs.len());
    for place in 0..count {
        let output = &site.outputs.as_slice()[place];
        let markers = &panels[output.panel as usize - 1];
        let asked = markers.asks(output);
        let by_hand = markers.asks_by_hand(output);
        runs[place] = runs[place].with(now, asked, by_hand);
    }
}
