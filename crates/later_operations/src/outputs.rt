ghost use Rattle.later_operations.specs.Outputs.{OutputsStay};

/// What is done in a tick or later changes nothing of which outputs were on, confirmed or unconfirmed up to that
/// tick, nor of how long they were on.
pub fn outputs_stay()
    ensures { OutputsStay }
{}
