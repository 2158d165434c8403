ghost use Rattle.std.specs.Prelude.{◌≡◌, [], ℕ, IfErr, IfOk, slice_index_or};
ghost use Rattle.site_types.specs.Valid.{IsValid};
ghost use Rattle.cause_effect.specs.Cycles.{HasNoCycle};
ghost use Rattle.cause_effect.specs.Refused.{IsRefusal};
ghost use Rattle.cause_effect.specs.Requests.{outputs_of};
ghost use Rattle.cause_effect.specs.Stands.{IsPlanOf};

use crate::arranged::Arranged;
use crate::plan::Plan;
use crate::refusal::PlanRefusal;
use crate::users::Users;
use crate::walk::cycle_from;
use marker_table::MarkerTable;
use site_types::{Output, Site};
use std::alloc::Global;
use tick_units::{Items, NoMemory};

/// The plan of a site's markers. Where a marker depends on itself there is none: then the answer is the cycle
/// that a walk finds which begins at the least marker from which a cycle is met, and goes from each marker to
/// the least of its terms from which one is. The cycle is listed from its least member onwards.
pub fn compile(alloc: Global, site: &Site) -> Result<Plan, PlanRefusal>
    requires { IsValid site.now }
    ensures plan { IfOk result (λ plan. IsPlanOf site.now plan) }
    ensures free { IfOk result (λ plan. HasNoCycle site.now) }
    ensures cycle { IfErr result (λ refusal. IsRefusal site.now refusal) }
{
    let arranged = Arranged::of(alloc, site)?;
    match arranged.first_left(site) {
        Some(first) => {
            let markers = cycle_from(alloc, site, &arranged.placed, first)?;
            Err(PlanRefusal::Cycle { markers })
        }
        None => Ok(Plan {
            table: MarkerTable::new(alloc, site)?,
            users: Users::of(alloc, site, arranged.order.as_slice())?,
            order: arranged.order,
            outputs: outputs_by_panel(alloc, site)?,
        }),
    }
}

// The outputs by the numbers of their panels.
fn outputs_by_panel(alloc: Global, site: &Site) -> Result<Items<Items<Output>>, NoMemory>
    requires { IsValid site.now }
    ensures { IfOk result (λ lists. (panel : ℕ)
        → slice_index_or lists panel [] ≡ outputs_of panel site.now.outputs) }
{
    let mut lists = Vec::with_capacity(alloc, 9)?;
    for panel in 0..9 {
        lists.push(outputs_of_panel(alloc, site.outputs.as_slice(), panel)?)?;
    }
    Ok(Items::from_vec(lists))
}

fn outputs_of_panel(alloc: Global, outputs: &[Output], panel: u8) -> Result<Items<Output>, NoMemory>
    ensures { IfOk result (λ own. own ≡ outputs_of panel outputs.now) }
{
    let mut own = Vec::new(alloc);
    for output in outputs {
        if output.panel == panel {
            own.push(*output)?;
        }
    }
    Ok(Items::from_vec(own))
}
