ghost use Rattle.panel_laws.specs.ProfileLaws.{
  DisablementIsShown,
  JoinedPanelsShow,
  NetworkIsTheSum,
  SignalIsShown,
  SignalledOutputIsOn,
  SingleDetectorIsShown,
};

/// The network's ticks are the sum of those in which a zone settles at its own panel and those in which its word goes
/// round.
pub fn network_is_the_sum()
    ensures { NetworkIsTheSum }
{}

/// The profile's ticks of a signal after a signal counts, the zone's own panel shows the zone.
pub fn signal_is_shown()
    ensures { SignalIsShown }
{}

/// The network's ticks after a signal counts, each panel that was joined with the zone's for the last of so many shows
/// the zone.
pub fn joined_panels_show()
    ensures { JoinedPanelsShow }
{}

/// An output without a delay is on after the signal's ticks of zones of its own panel, and after the network's of zones
/// of panels that were joined with it.
pub fn signalled_output_is_on()
    ensures { SignalledOutputIsOn }
{}

/// Where a single detector of a zone of type A signals, the time that the zone asks for and the profile's addition come
/// on top of the signal's ticks.
pub fn single_detector_is_shown()
    ensures { SingleDetectorIsShown }
{}

/// From the profile's ticks of a disablement after its operation on, what it set is in force and shown by its panel,
/// where the operation was accepted and no turn of Keep failed in its tick and the next, until another operation on the
/// setting is done.
pub fn disablement_is_shown()
    ensures { DisablementIsShown }
{}
