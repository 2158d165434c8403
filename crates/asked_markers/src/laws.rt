//! A law of the definitions: the contract of a function that does nothing.

ghost use Rattle.asked_markers.specs.Laws.{AllFactsDecide};

/// Where masks tell all that may be true, an output's marker is true over them exactly where it is over some facts
/// each of which may be true.
pub fn all_facts_decide()
    ensures { AllFactsDecide }
{}
