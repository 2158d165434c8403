ghost use Rattle.signal_points.specs.Laws.{EarlierSignalsStay, SignalsAreTold};

/// A point signals by the test exactly where it does by the rules.
pub fn signals_are_told()
    ensures { SignalsAreTold }
{}

/// One more tick changes nothing of which points signalled in the ticks before it.
pub fn earlier_signals_stay()
    ensures { EarlierSignalsStay }
{}
