ghost use Rattle.node_laws.specs.AskedOutputs.{AskedAtNodeIsOn, KeptThroughoutIsOn};
ghost use Rattle.node_laws.specs.CausedOutputs.{OnAtNodeIsCaused};
ghost use Rattle.node_laws.specs.DueOutputs.{DueAtNodeIsOn};

/// **An output that is due to be on for the zones of its own panel is shown on**, where nothing is reported on the
/// points of other panels: the zones that were due for as long as its delay make its marker true, or those due by hand
/// do now, and it is neither disabled nor a quiet sounder.
pub fn due_at_node_is_on()
    ensures { DueAtNodeIsOn }
{}

/// **An output for which the words ask that its panel keeps is shown on**, where they asked at each of its turns of
/// Effect in this tick, in the one before and through the delay, or by hand in these two ticks.
pub fn asked_at_node_is_on()
    ensures { AskedAtNodeIsOn }
{}

/// **So is an output whose marker is true over the words kept throughout this tick, the two before it and its delay**,
/// with all faults taken as false.
pub fn kept_throughout_is_on()
    ensures { KeptThroughoutIsOn }
{}

/// **No output is shown on without a cause**: the words that the panel kept at a turn of Effect in this tick or in the
/// one before made its marker true. Those of other panels were the newest that had come in frames, and all that its own
/// word told is caused.
pub fn on_at_node_is_caused()
    ensures { OnAtNodeIsCaused }
{}
