ghost use Rattle.node_laws.specs.OwnZones.{DueAtNodeIsShown, LoneAtNodeIsShown, OwnZonesOfTheRing, ShownAtNodeIsCaused};

/// A panel by itself shows of its own zones, in alarm and in first state, what it would show in the ring after the same
/// moments, whatever came in frames.
pub fn own_zones_of_the_ring()
    ensures { OwnZonesOfTheRing }
{}

/// **A zone that is due at its own panel is shown in the face of that panel**, whatever the order of turns and whatever
/// came in frames.
pub fn due_at_node_is_shown()
    ensures { DueAtNodeIsShown }
{}

/// **A panel shows no zone of its own without a cause**: an answer confirmed it, and no floor undid it by now.
pub fn shown_at_node_is_caused()
    ensures { ShownAtNodeIsCaused }
{}

/// A zone of type B with one lasting signal is shown in alarm or in first state by its own panel, until its time ends.
pub fn lone_at_node_is_shown()
    ensures { LoneAtNodeIsShown }
{}
