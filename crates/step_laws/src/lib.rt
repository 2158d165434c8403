//! What the steps of a tick's turns come to in written cases: how many markers a small site evaluates.
//!
//! `System::turns` of `panel_core` promises that its counter of steps rises by what `RisesOver` asks for: at each turn
//! of Effect by the markers that depend on a fact that changed since the panel's turn of Effect before, and by those
//! that depend on one that changed by hand. No program sees that counter, so here its numbers are computed, for one
//! panel whose turns are in canonical order: no step where no fact changed, a step for each of two markers where a
//! detector released the zone of both, and two for each where a call point did. Each function is a law: its contract
//! says it, and its body does nothing.
#![tactic(auto)]

ghost use Rattle.step_laws.specs.WrittenTurns.{ByCallPointFourSteps, ByDetectorTwoSteps, UnchangedNoStep};

/// A tick in which Effect goes by the facts of its turn before takes no step, whatever the site's markers.
pub fn unchanged_facts_take_no_step()
    ensures { UnchangedNoStep }
{}

/// A tick in which a zone is released takes two steps, where each of the site's two markers has that zone as a term;
/// if it is released by hand too, it takes four.
pub fn a_released_zone_takes_its_steps()
    ensures by_detector { ByDetectorTwoSteps }
    ensures by_call_point { ByCallPointFourSteps }
{}
