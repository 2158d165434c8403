//! The cables of a site's loops, by the places of the loops.

ghost use Rattle.std.specs.Prelude.{◌≡◌, ◌==◌, ◌&&◌, [], ◌∷◌, List, IfOk, position};
ghost use Rattle.site_types.specs.declared.event.Event.TheVariants.{Cable as CableEvent};
ghost use Rattle.isolators.specs.Stands.{StandsFor as LineStandsFor};
ghost use Rattle.panel_rules.specs.Moments.{Moment as MomentOf, Happened};
ghost use Rattle.panel_rules.specs.States.{piece_of};
ghost use Rattle.field_states.specs.Lines.{LinesStand, cable_after};

use isolators::LoopLine;
use site_types::{LoopPlan, PieceState};
use std::alloc::Global;
use tick_units::NoMemory;

/// The cables of these loops, all pieces sound.
pub fn lines_of(alloc: Global, plans: &[LoopPlan]) -> Result<Vec<LoopLine>, NoMemory>
    ensures { IfOk result (λ lines. LinesStand plans.now [] lines.items) }
{
    let mut lines = Vec::new(alloc);
    for plan in plans {
        lines.push(LoopLine::new(plan))?;
    }
    Ok(lines)
}

/// The place of the loop of a panel with a number.
pub fn place_of(plans: &[LoopPlan], panel: u8, line: u8) -> Option<usize>
    ensures { result ≡ position (λ plan. (plan.panel == panel) && (plan.line == line)) plans.now }
{
    plans
        .iter()
        .position(|plan| plan.panel == panel && plan.line == line)
}

/// Takes a report on a piece of the cable of a loop of a panel.
pub fn report(
    lines: &mut [LoopLine],
    plans: &[LoopPlan],
    panel: u8,
    line: u8,
    piece: u8,
    state: PieceState,
)
    ensures { (before : List MomentOf) → LinesStand plans.now before lines.old
        → LinesStand plans.now (Happened (CableEvent panel line piece state) ∷ before) lines.new }
{
    for place in 0..lines.len() {
        match plans.get(place) {
            None => {}
            Some(plan) => {
                let cable = &mut lines[place];
                report_to(cable, plan, panel, line, piece, state);
            }
        }
    }
}

// One loop takes the report of a piece of cable, if it's the loop that is named.
fn report_to(
    cable: &mut LoopLine,
    plan: &LoopPlan,
    panel: u8,
    line: u8,
    piece: u8,
    state: PieceState,
)
    ensures { (before : List MomentOf)
        → LineStandsFor plan.now (cable_after plan.now before) cable.old → LineStandsFor plan.now
        (cable_after plan.now (Happened (CableEvent panel line piece state) ∷ before)) cable.new }
{
    if plan.panel == panel && plan.line == line {
        cable.set_piece(piece, state);
    }
}
