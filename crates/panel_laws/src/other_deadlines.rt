ghost use Rattle.panel_laws.specs.OtherDeadlines.{StandsAgain, PieceIsShown, LinkIsShown, AwayIsMissing};
ghost use Rattle.panel_laws.specs.OtherDeadlines.{BadSupplyIsShown, CutOffIsSilent, AcceptedIsInForce};

/// What still signals after a reset is shown again on the zone's own panel within the profile's ticks of a
/// reset; the time that a single detector of type A needs comes on top.
pub fn stands_again()
    ensures { StandsAgain }
{}

/// An open and a short piece of cable are shown in their own tick.
pub fn piece_is_shown()
    ensures { PieceIsShown }
{}

/// A link that is down is shown in its own tick.
pub fn link_is_shown()
    ensures { LinkIsShown }
{}

/// A point that was gone or not reached for the profile's ticks of a fault is shown as missing, where neither
/// it nor its zone is disabled.
pub fn away_is_missing()
    ensures { AwayIsMissing }
{}

/// A supply that was bad for its wait and the profile's ticks of a fault is shown.
pub fn bad_supply_is_shown()
    ensures { BadSupplyIsShown }
{}

/// A panel to which one link on each of the two ways round was down for the profile's ticks of a fault is
/// shown as silent.
pub fn cut_off_is_silent()
    ensures { CutOffIsSilent }
{}

/// An operation on a setting that Desk accepted is done by the tick after its own, where no turn of Keep
/// failed in the two, and holds from the tick after on until another operation on the setting is done.
pub fn accepted_is_in_force()
    ensures { AcceptedIsInForce }
{}
