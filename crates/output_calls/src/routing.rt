ghost use Rattle.output_calls.specs.RoutingCalls.{ConfirmedByCalls, UnconfirmedByCalls};

/// An output is confirmed by the calls exactly where it is by the rules.
pub fn confirmed_by_calls()
    ensures { ConfirmedByCalls }
{}

/// An output is unconfirmed by the calls exactly where it is by the rules.
pub fn unconfirmed_by_calls()
    ensures { UnconfirmedByCalls }
{}
