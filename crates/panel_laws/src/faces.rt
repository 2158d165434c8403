ghost use Rattle.panel_laws.specs.FaceLaws.{DueZoneIsShown, ShownZoneIsCaused, DueOutputIsShown, ShownOutputIsCaused};
ghost use Rattle.panel_laws.specs.FaceLaws.{LoneZoneIsShown, FireIsCounted};
ghost use Rattle.panel_laws.specs.ShownOutputs.{IndicatedOutputIsShown};

/// **A zone that is due at a panel is shown in its face after the tick**, whatever the orders of turns: at
/// the zone's own panel after the profile's ticks of a signal, and at each panel that was joined with it
/// within the network's.
pub fn due_zone_is_shown()
    ensures { DueZoneIsShown }
{}

/// No zone is shown in the face of a panel without a cause: an answer confirmed it, and no floor undid it by
/// the tick in which its own panel shows it, or by the stamp that another panel has heard.
pub fn shown_zone_is_caused()
    ensures { ShownZoneIsCaused }
{}

/// **An output that is due to be on is shown in the face of its panel.**
pub fn due_output_is_shown()
    ensures { DueOutputIsShown }
{}

/// An output without a delay is shown on in the face of its panel once each word of that panel has asked for it through
/// the profile's ticks of the output, where it is neither disabled nor a quiet sounder.
pub fn indicated_output_is_shown()
    ensures { IndicatedOutputIsShown }
{}

/// No output is shown without a cause.
pub fn shown_output_is_caused()
    ensures { ShownOutputIsCaused }
{}

/// A zone of type B with one lasting signal is shown in alarm or in first state by its own panel, until its time ends.
pub fn lone_zone_is_shown()
    ensures { LoneZoneIsShown }
{}

/// The fire alarm condition of a panel is told by its face exactly where it stands, and it is the one whose
/// entries are counted.
pub fn fire_is_counted()
    ensures { FireIsCounted }
{}
