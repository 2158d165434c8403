ghost use Rattle.later_operations.specs.Calls.{CallsStay};

/// What is done in a tick or later changes nothing of what the parts that drive outputs were told up to that tick.
pub fn calls_stay()
    ensures { CallsStay }
{}
