ghost use Rattle.std.specs.Prelude.{◌≡◌};
ghost use Rattle.panel_links.specs.Stands.{HasPanel};
ghost use Rattle.panel_effects.specs.Heard.{TellsFacts};
ghost use Rattle.panel_effects.specs.Masks.{hand_masks};

use cause_effect::{Facts, Plan, Steps, Values};
use panel_links::Ring;
use site_types::Requests;
use std::sync::ledger::Ledger;

/// What the latest turn of Effect of a panel went by and found.
#[derive(Drop)]
pub struct Effects {
    facts: Facts,
    /// The solution over the facts.
    normal: Values,
    /// The solution over what counts by hand.
    manual: Values,
    requests: Requests,
}

impl Effects {
    ghost use Rattle.panel_effects.specs.Changes.{AsksAsRuled, HasNoTurn, MakesEffectTurn, ReleasesAsRuled};
    ghost use Rattle.panel_effects.specs.Changes.{RisesByChanges, RisesByFactsOfRun};
    ghost use Rattle.panel_effects.specs.Heard.{RisesByWords, TurnsByWords};

    /// Of a panel whose Effect has had no turn yet: no fact is true, and nothing is asked for.
    pub fn new(panel: u8, plan: &Plan) -> Effects
        ensures { HasNoTurn panel plan.now result }
    {
        let facts = Facts {
            zones: [0; 8],
            manual: [0; 8],
            faults: 0,
        };
        let mut values = Values::none();
        plan.solve(&facts, &mut values);
        Effects {
            facts,
            normal: values,
            manual: values,
            requests: plan.requests(panel, &values, &values),
        }
    }

    /// Makes a turn over facts. Each marker that is evaluated is a step.
    pub fn turn<L: Ledger>(&mut self, plan: &Plan, panel: u8, facts: &Facts, steps: &mut Steps<L>)
        ensures stands { MakesEffectTurn plan.now panel facts.now self.old self.new }
        ensures steps { RisesByChanges plan.now facts.now self.old steps.old steps.new }
        ensures ruled { RisesByFactsOfRun plan.now panel facts.now self.old steps.old steps.new }
    {
        if self.facts == *facts {
            return;
        }
        self.turn_over(plan, panel, facts, steps);
    }

    // Makes a turn over facts that may be other ones than those of the turn before. It isn't inlined, since nearly all
    // turns are made over the same ones.
    #[inline(never)]
    fn turn_over<L: Ledger>(&mut self, plan: &Plan, panel: u8, facts: &Facts, steps: &mut Steps<L>)
        ensures stands { MakesEffectTurn plan.now panel facts.now self.old self.new }
        ensures steps { RisesByChanges plan.now facts.now self.old steps.old steps.new }
        ensures ruled { RisesByFactsOfRun plan.now panel facts.now self.old steps.old steps.new }
    {
        let hand_before = by_hand(&self.facts);
        let hand = by_hand(facts);
        plan.solve_changed(&self.facts, facts, &mut self.normal, steps);
        plan.solve_changed(&hand_before, &hand, &mut self.manual, steps);
        self.requests = plan.requests(panel, &self.normal, &self.manual);
        self.facts = *facts;
    }

    /// Makes a turn over what the words tell that the panel keeps of the panels of the ring. Each marker that is
    /// evaluated is a step.
    pub fn turn_by_words<L: Ledger>(
        &mut self,
        plan: &Plan,
        ring: &Ring,
        panel: u8,
        steps: &mut Steps<L>,
    )
        requires { HasPanel ring.now panel }
        ensures stands { TurnsByWords plan.now ring.now panel self.old self.new }
        ensures steps { RisesByWords plan.now ring.now panel self.old steps.old steps.new }
    {
        self.turn(plan, panel, facts_heard(ring, panel), steps);
    }

    /// The outputs of the panel that the latest turn asks for, and those that it asks for by hand.
    pub fn requests(&self) -> Requests
        ensures { AsksAsRuled self.now result }
    {
        self.requests
    }

    /// The zones that were released for the latest turn, by panel, bit `number - 1` each.
    pub fn released(&self) -> &[u32; 8]
        ensures { ReleasesAsRuled self.now result.now }
    {
        &self.facts.zones
    }
}

// The facts that a turn of Effect of a panel made now goes by.
fn facts_heard(ring: &Ring, panel: u8) -> &Facts
    requires { HasPanel ring.now panel }
    ensures { TellsFacts ring.now panel result.now }
{
    ring.facts(panel)
}

// What counts by hand: zones where a manual call point did it, and no faults.
fn by_hand(facts: &Facts) -> Facts
    ensures { result ≡ hand_masks facts.now }
{
    Facts {
        zones: facts.manual,
        manual: facts.manual,
        faults: 0,
    }
}
