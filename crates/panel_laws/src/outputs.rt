ghost use Rattle.panel_rules.specs.OutputLaws.{UnaskedIsOff, FaultsAreTold, DueNeedsASignal, DueOutputNeedsASignal};
ghost use Rattle.panel_laws.specs.OutputDeadlines.{DueOutputIsOn, IndicatedOutputIsOn, OnOutputIsCaused};

/// An output that nobody asks is off, whatever the delays, operations and orders of turns.
pub fn unasked_is_off()
    ensures { UnaskedIsOff }
{}

/// The word of a panel tells a fault exactly where one stood at the turn of Hold that made it. Outputs
/// without confirmation are faults, and outputs go by words, so words tell of one another; each is told by
/// those made before.
pub fn faults_are_told()
    ensures { FaultsAreTold }
{}

/// A zone is due only where a point of it, or of its partner, was in alarm, reached and not blocked.
pub fn due_needs_a_signal()
    ensures { DueNeedsASignal }
{}

/// An output is due only where such a point of some zone was.
pub fn due_output_needs_a_signal()
    ensures { DueOutputNeedsASignal }
{}

/// **An output that is due to be on is on**, whatever the orders of turns: the zones that were due at its
/// panel for as long as its delay make its marker true, or those due by hand do now, and it is neither
/// disabled nor a quiet sounder.
pub fn due_output_is_on()
    ensures { DueOutputIsOn }
{}

/// An output without a delay is on once each word of its own panel has asked for it through the profile's
/// ticks of the output.
pub fn indicated_output_is_on()
    ensures { IndicatedOutputIsOn }
{}

/// No output is on without a cause: zones that are caused at the stamps that its panel had heard, and faults
/// that stood then, make its marker true.
pub fn on_output_is_caused()
    ensures { OnOutputIsCaused }
{}
