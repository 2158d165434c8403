ghost use Rattle.audit_rules.specs.Laws.{HeardMayBe, HeldZoneCanBeShown, KeptZoneCanBeShown, VerdictIsOne};

/// A record and a text of a valid site have at most one verdict.
pub fn verdict_is_one()
    ensures { VerdictIsOne }
{}

/// **What a panel has heard of another after a tick is a stamp that an auditor counts as one that it may have heard**,
/// whatever the orders of turns: it is no later than that tick, and no older than the network's ticks where the two
/// were joined for so long.
pub fn heard_stamps_may_be_heard()
    ensures { HeardMayBe }
{}

/// A zone that is in alarm after a tick of a run can have been shown, at its own panel and at each that keeps a word
/// with it: the auditor finds the cause that the panel had.
pub fn held_zones_can_be_shown()
    ensures own { HeldZoneCanBeShown }
    ensures told { KeptZoneCanBeShown }
{}
