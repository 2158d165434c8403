ghost use Rattle.hold_calls.specs.HoldLaws.{HeldWord};
ghost use Rattle.hold_calls.specs.ToldLaws.{ToldWord};

/// The word after the turns of a run is the panel's latest one, and tells a fault where these are told of one.
pub fn told_word()
    ensures { ToldWord }
{}

/// In the ring it is the panel's latest word by the rules.
pub fn held_word()
    ensures { HeldWord }
{}
