//! The markers of a site over some facts.

ghost use Rattle.std.specs.Prelude.{◌≡◌, ◌<◌, ℕ};
ghost use Rattle.site_types.specs.declared.site.Site.{Site as SiteOf};
ghost use Rattle.marker_table.specs.Equations.{values_of};
ghost use Rattle.cause_effect.specs.Solutions.{IsSolution};
ghost use Rattle.cause_effect.specs.Stands.{IsPlanOf};
ghost use Rattle.asked_markers.specs.Solved.{GoesBy, TellsAsked};

use cause_effect::{Facts, Plan, Steps, Values};
use site_types::Output;
use std::marker::Brand;
use std::sync::ledger::{Blank, Ledger};

/// Facts, and which markers are true over them.
#[derive(Clone, Copy)]
pub struct AskedMarkers {
    facts: Facts,
    values: Values,
}

impl AskedMarkers {
    /// The markers over some facts, solved from scratch.
    pub fn new(plan: &Plan, facts: &Facts) -> AskedMarkers
        ensures { (site : SiteOf) → IsPlanOf site plan.now → GoesBy site facts.now result }
    {
        let mut values = Values::none();
        plan.solve(facts, &mut values);
        AskedMarkers {
            facts: *facts,
            values,
        }
    }

    /// Goes over to other facts.
    pub fn go_over(&mut self, plan: &Plan, facts: &Facts)
        ensures { (site : SiteOf) → IsPlanOf site plan.now → GoesBy site self.old.facts self.old
            → GoesBy site facts.now self.new }
    {
        solve_over::<Brand>(plan, &self.facts, facts, &mut self.values, Blank::new(1));
        self.facts = *facts;
    }

    /// The facts that it goes by.
    pub fn facts(&self) -> &Facts
        ensures { result.now ≡ self.now.facts }
    {
        &self.facts
    }

    /// Whether the marker of an output of the site is true.
    pub fn asks(&self, output: &Output) -> bool
        ensures { TellsAsked self.now output.now result }
    {
        self.values.is_true(output.marker)
    }
}

// Goes on from the solution over the facts before, with a counter that is let go.
fn solve_over<L: Ledger>(
    plan: &Plan,
    before: &Facts,
    after: &Facts,
    values: &mut Values,
    blank: Blank,
)
    requires name { blank.name ≡ L.name }
    requires parts { blank.parts ≡ L.parts }
    requires some { 0 < blank.parts }
    ensures { (site : SiteOf) → IsPlanOf site plan.now
        → IsSolution site before.now (values_of values.old)
        → IsSolution site after.now (values_of values.new) }
{
    let mut steps: Steps<L> = Steps::new(blank);
    plan.solve_changed(before, after, values, &mut steps);
}
