ghost use Rattle.std.specs.Prelude.{◌≡◌, ◌≢◌, ◌<◌, ◌+◌, [], ℕ, Some, false, slice_get, slice_index_or};
ghost use Rattle.site_types.specs.declared.site.Site.{Site as SiteOf};
ghost use Rattle.marker_table.specs.declared.facts.Facts.{Facts as Masks};
ghost use Rattle.marker_table.specs.Equations.{equation, values_of};
ghost use Rattle.marker_table.specs.Table.{HasFacts, value_read};
ghost use Rattle.cause_effect.specs.Changes.{DependsOnChanged, RoseByNumberOf};
ghost use Rattle.cause_effect.specs.Requests.{requests_of};
ghost use Rattle.cause_effect.specs.Solutions.{IsSolution};
ghost use Rattle.cause_effect.specs.Stands.{IsPlanOf};

use crate::asked::requests_among;
use crate::users::Users;
use marker_table::{Facts, MarkerTable, Readings, Steps, Values};
use site_types::{Output, Requests, with_bit_32};
use std::marker::Brand;
use std::sync::ledger::{Blank, Ledger};
use tick_units::Items;

/// The markers of a site in an order in which each comes after its terms, and the outputs that they ask for.
#[derive(Drop)]
pub struct Plan {
    pub(crate) table: MarkerTable,
    pub(crate) order: Items<u8>,
    pub(crate) users: Users,
    // By the numbers of their panels, of which 0 has none.
    pub(crate) outputs: Items<Items<Output>>,
}

impl Plan {
    /// The one solution over facts, from scratch.
    pub fn solve(&self, facts: &Facts, values: &mut Values)
        ensures { (site : SiteOf) → IsPlanOf site self.now
            → IsSolution site facts.now (values_of values.new) }
    {
        *values = Values::none();
        self.solve_in_order::<Brand>(facts, values, Blank::new(1))
    }

    // Evaluates the markers in their order, with a counter that is let go.
    fn solve_in_order<L: Ledger>(&self, facts: &Facts, values: &mut Values, blank: Blank)
        requires name { blank.name ≡ L.name }
        requires parts { blank.parts ≡ L.parts }
        requires some { 0 < blank.parts }
        requires none { (marker : ℕ) → values_of values.old marker ≡ false }
        ensures { (site : SiteOf) → IsPlanOf site self.now
            → IsSolution site facts.now (values_of values.new) }
    {
        let mut steps: Steps<L> = Steps::new(blank);
        for marker in self.order.as_slice() {
            let value = self
                .table
                .evaluate(*marker as u16, facts, values, &mut steps);
            values.set(*marker, value);
        }
    }

    /// The one solution over the facts after a change, where the values are the solution over those before
    /// it. It evaluates the markers that depend on a fact that changed, directly or through markers, and no
    /// other.
    pub fn solve_changed<L: Ledger>(
        &self,
        before: &Facts,
        after: &Facts,
        values: &mut Values,
        steps: &mut Steps<L>,
    )
        ensures solution { (site : SiteOf) → IsPlanOf site self.now
            → IsSolution site before.now (values_of values.old)
            → IsSolution site after.now (values_of values.new) }
        ensures steps { (site : SiteOf) → IsPlanOf site self.now
            → RoseByNumberOf (DependsOnChanged site before.now after.now) steps.old steps.new }
    {
        if before == after {
            return;
        }
        let marks = self.users.marks_of(before, after);
        let mut readings = Readings::of(after, values);
        for number in 0..8 {
            let mut left = marks.word(number);
            while left != 0 {
                let bit = left.trailing_zeros() as u8;
                self.solve_at(32 * number + bit as usize, &mut readings, steps);
                left = with_bit_32(left, bit, false);
            }
        }
        *values = readings.values();
    }

    // Evaluates the marker at a place of the order, if there is one.
    fn solve_at<L: Ledger>(&self, place: usize, readings: &mut Readings, steps: &mut Steps<L>)
        ensures facts { (facts : Masks) → HasFacts facts readings.old
            → HasFacts facts readings.new }
        ensures value { (site : SiteOf) (facts : Masks) (m : ℕ) → IsPlanOf site self.now
            → HasFacts facts readings.old → slice_get self.now.order place ≡ Some m
            → value_read readings.new m ≡ equation site facts (value_read readings.old) m }
        ensures others { (marker other : ℕ) → slice_get self.now.order place ≡ Some marker
            → other ≢ marker → value_read readings.new other ≡ value_read readings.old other }
        ensures step { (marker : ℕ) → slice_get self.now.order place ≡ Some marker
            → steps.new ≡ steps.old + 1 }
    {
        if let Some(marker) = self.order.get(place) {
            let value = self.table.evaluate_read(*marker as u16, readings, steps);
            readings.put(*marker, value);
        }
    }

    /// What a panel's outputs are asked for: by the solution over the facts, and by hand, by the solution
    /// over call points alone.
    pub fn requests(&self, panel: u8, normal: &Values, manual: &Values) -> Requests
        ensures { (site : SiteOf) → IsPlanOf site self.now
            → result ≡ requests_of site panel (values_of normal.now) (values_of manual.now) }
    {
        requests_among(self.outputs_of(panel), normal, manual)
    }

    fn outputs_of(&self, panel: u8) -> &[Output]
        ensures { result.now ≡ slice_index_or self.now.outputs panel [] }
    {
        match self.outputs.get(panel as usize) {
            Some(outputs) => outputs.as_slice(),
            None => &[],
        }
    }
}
