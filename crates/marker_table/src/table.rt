ghost use Rattle.std.specs.Prelude.{◌≡◌, ◌+◌, Bool, IfOk, ℕ};
ghost use Rattle.site_types.specs.Valid.{IsValid};
ghost use Rattle.site_types.specs.declared.site.Site.{Site as SiteOf};
ghost use Rattle.marker_table.specs.Equations.{equation, values_of};
ghost use Rattle.marker_table.specs.declared.facts.Facts.{Facts as Masks};
ghost use Rattle.marker_table.specs.Table.{HasFacts, HasValues, IsTableOf};

use crate::facts::Facts;
use crate::readings::Readings;
use crate::row::Row;
use crate::steps::Steps;
use crate::values::Values;
use site_types::Site;
use std::alloc::Global;
use std::sync::ledger::Ledger;
use tick_units::{Items, NoMemory};

/// The markers of a site: what each looks at, and how that is combined.
#[derive(Drop)]
pub struct MarkerTable {
    rows: Items<Row>,
}

impl MarkerTable {
    /// The table of a site's markers.
    pub fn new(alloc: Global, site: &Site) -> Result<MarkerTable, NoMemory>
        requires { IsValid site.now }
        ensures { IfOk result (λ table. IsTableOf site.now table) }
    {
        let mut rows = Vec::with_capacity(alloc, site.markers.len())?;
        for marker in site.markers.as_slice() {
            rows.push(Row::of(alloc, site, marker)?)?;
        }
        Ok(MarkerTable {
            rows: Items::from_vec(rows),
        })
    }

    /// What a marker's terms make of it over facts and the values of the markers: one step. A marker that the
    /// site hasn't is false.
    pub fn evaluate<L: Ledger>(
        &self,
        marker: u16,
        facts: &Facts,
        values: &Values,
        steps: &mut Steps<L>,
    ) -> bool
        ensures equation { (site : SiteOf) → IsTableOf site self.now
            → result ≡ equation site facts.now (values_of values.now) marker }
        ensures step { steps.new ≡ steps.old + 1 }
    {
        self.evaluate_read(marker, &Readings::of(facts, values), steps)
    }

    /// The marker's equation over readings, which hold masks of facts and of the markers' values.
    pub fn evaluate_read<L: Ledger>(
        &self,
        marker: u16,
        readings: &Readings,
        steps: &mut Steps<L>,
    ) -> bool
        ensures equation { (site : SiteOf) (facts : Masks) (values : ℕ → Bool)
            → IsTableOf site self.now → HasFacts facts readings.now
            → HasValues values readings.now → result ≡ equation site facts values marker }
        ensures step { steps.new ≡ steps.old + 1 }
    {
        steps.raise();
        match self.rows.get(marker as usize) {
            Some(row) => row.is_met(readings),
            None => false,
        }
    }
}
