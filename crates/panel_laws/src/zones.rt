ghost use Rattle.panel_rules.specs.Laws.{OwnZoneIsShown, OwnZoneIsReleased, OwnZoneIsByHand, OwnZoneIsCaused};
ghost use Rattle.panel_rules.specs.Laws.{OwnHandIsCaused, OwnReleaseIsCaused, LoneSignalIsShown};

/// After a tick a zone that is due at its own panel is in alarm there, whatever the orders of turns.
pub fn own_zone_is_shown()
    ensures { OwnZoneIsShown }
{}

/// A zone that is due for outputs is released at its own panel.
pub fn own_zone_is_released()
    ensures { OwnZoneIsReleased }
{}

/// A zone that is due by hand is by hand at its own panel.
pub fn own_zone_is_by_hand()
    ensures { OwnZoneIsByHand }
{}

/// A zone that its panel holds in alarm was confirmed by an answer, and no floor undid it.
pub fn own_zone_is_caused()
    ensures { OwnZoneIsCaused }
{}

/// A zone that its panel holds to be by hand was confirmed by a manual call point, and no floor undid it.
pub fn own_hand_is_caused()
    ensures { OwnHandIsCaused }
{}

/// A zone that its panel holds to be released was released by an answer, and no floor undid it.
pub fn own_release_is_caused()
    ensures { OwnReleaseIsCaused }
{}

/// A zone of type B with one lasting signal is in alarm or in its first state until its time ends.
pub fn lone_signal_is_shown()
    ensures { LoneSignalIsShown }
{}
