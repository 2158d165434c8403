//! The markers over what is due at a panel.

ghost use Rattle.std.specs.Prelude.{◌≡◌};
ghost use Rattle.site_types.specs.declared.site.Site.{Site as SiteOf};
ghost use Rattle.cause_effect.specs.Stands.{IsPlanOf};
ghost use Rattle.asked_markers.specs.Solved.{TellsAsked};
ghost use Rattle.due_outputs.specs.Solved.{AreSolved, GoByDue, hands_due, out_due};

use asked_markers::AskedMarkers;
use cause_effect::{Facts, Plan};
use due_zones::DueZones;
use site_types::Output;

/// The markers of a site over the zones that are due at a panel.
#[derive(Clone, Copy)]
pub(crate) struct PanelMarkers {
    /// Over those that are due to be released, and by hand.
    out: AskedMarkers,
    /// Over those that are due by hand alone.
    hand: AskedMarkers,
}

impl PanelMarkers {
    /// No zone is due.
    pub(crate) fn new(plan: &Plan) -> PanelMarkers
        ensures { (site : SiteOf) → IsPlanOf site plan.now → AreSolved site result }
    {
        let asked = AskedMarkers::new(plan, &facts_out(&DueZones::NONE));
        PanelMarkers {
            out: asked,
            hand: asked,
        }
    }

    /// Takes the zones that are due.
    pub(crate) fn take(&mut self, plan: &Plan, zones: &DueZones)
        ensures { (site : SiteOf) → IsPlanOf site plan.now → AreSolved site self.old
            → GoByDue site zones.now self.new }
    {
        self.out.go_over(plan, &facts_out(zones));
        self.hand.go_over(plan, &facts_by_hand(zones));
    }

    /// Whether the marker of an output is true.
    pub(crate) fn asks(&self, output: &Output) -> bool
        ensures { TellsAsked self.now.out output.now result }
    {
        self.out.asks(output)
    }

    /// Whether it is true by hand.
    pub(crate) fn asks_by_hand(&self, output: &Output) -> bool
        ensures { TellsAsked self.now.hand output.now result }
    {
        self.hand.asks(output)
    }
}

fn facts_out(zones: &DueZones) -> Facts
    ensures { result ≡ out_due zones.now }
{
    Facts {
        zones: zones.out,
        manual: zones.by_hand,
        faults: 0,
    }
}

fn facts_by_hand(zones: &DueZones) -> Facts
    ensures { result ≡ hands_due zones.now }
{
    Facts {
        zones: zones.by_hand,
        manual: zones.by_hand,
        faults: 0,
    }
}
