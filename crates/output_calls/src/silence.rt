ghost use Rattle.output_calls.specs.SilenceCalls.{QuietByCalls};

/// The sounders of a panel are quiet by the calls exactly where they are by the rules.
pub fn quiet_by_calls()
    ensures { QuietByCalls }
{}
