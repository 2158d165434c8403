//! Laws on what findings tell: each is the contract of a function that does nothing.

ghost use Rattle.panel_conditions.specs.Laws.{AnswersTellFaults, AnswersTellWord};
ghost use Rattle.panel_conditions.specs.Laws.{FindingsTellAlarm, FindingsTellFirst, FindingsTellHand};
ghost use Rattle.panel_conditions.specs.Laws.{FindingsTellMissing, FindingsTellReleased};

/// The findings of answers tell of a zone what the answers themselves do.
pub fn zones_tell()
    ensures alarm { FindingsTellAlarm }
    ensures hand { FindingsTellHand }
    ensures released { FindingsTellReleased }
    ensures first { FindingsTellFirst }
{}

/// The last finding of a point tells whether its last three answers were silent.
pub fn missing_tells()
    ensures { FindingsTellMissing }
{}

/// The word and the faults of a panel go by the answers whose findings it took.
pub fn answers_tell()
    ensures word { AnswersTellWord }
    ensures faults { AnswersTellFaults }
{}
