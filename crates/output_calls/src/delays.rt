ghost use Rattle.output_calls.specs.DelayCalls.{ThroughByCalls};

/// An output passes the delays by the calls exactly where the rules let it act.
pub fn through_by_calls()
    ensures { ThroughByCalls }
{}
