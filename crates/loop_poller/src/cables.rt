ghost use Rattle.std.specs.Prelude.{◌≡◌, ◌==◌, ◌&&◌, option_copied};
ghost use Rattle.std.specs.List.{find};
ghost use Rattle.site_types.specs.declared.site.Site.{Site as SiteOf};
ghost use Rattle.isolators.specs.Reach.{sound_cable};
ghost use Rattle.site_types.specs.Things.{loop_of};
ghost use Rattle.loop_poller.specs.Cables.{CableStands};

use isolators::LoopLine;
use site_types::{LoopPlan, Site};

fn plan_of(plans: &[LoopPlan], panel: u8, line: u8) -> Option<&LoopPlan>
    ensures { option_copied result ≡ find (λ plan. (plan.panel == panel) && (plan.line == line))
        plans.now }
{
    plans
        .iter()
        .find(|plan| plan.panel == panel && plan.line == line)
}

/// The cable of a loop of a panel, if the loop is there.
pub(crate) fn cable_of(site: &Site, panel: u8, line: u8) -> Option<LoopLine>
    ensures { CableStands (loop_of site.now panel line) sound_cable result }
{
    match plan_of(site.loops.as_slice(), panel, line) {
        Some(plan) => Some(LoopLine::new(plan)),
        None => None,
    }
}
