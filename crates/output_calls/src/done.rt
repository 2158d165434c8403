ghost use Rattle.output_calls.specs.DoneCalls.{DoneIsLatestFirst};

/// The operations that a run makes done are listed with the latest first, as the other laws ask.
pub fn done_is_latest_first()
    ensures { DoneIsLatestFirst }
{}
