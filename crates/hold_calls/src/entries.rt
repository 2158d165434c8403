ghost use Rattle.hold_calls.specs.HoldLaws.{HeldEntries};
ghost use Rattle.hold_calls.specs.ToldLaws.{ToldEntries};

/// The turns of a run count each entry into the fire alarm condition once, whatever they are told from elsewhere.
pub fn told_entries()
    ensures { ToldEntries }
{}

/// The turns of a run count each entry into the fire alarm condition once, told by the ring's words.
pub fn held_entries()
    ensures { HeldEntries }
{}
