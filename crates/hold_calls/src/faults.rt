ghost use Rattle.hold_calls.specs.HoldLaws.{HeldFaults};
ghost use Rattle.hold_calls.specs.ToldLaws.{ToldFaults};

/// The faults after the turns of a run are those that the latest of them was told of.
pub fn told_faults()
    ensures { ToldFaults }
{}

/// In the ring they are those of the rules.
pub fn held_faults()
    ensures { HeldFaults }
{}
