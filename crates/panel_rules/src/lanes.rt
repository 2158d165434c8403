ghost use Rattle.panel_rules.specs.Lanes.{LanesHoldFew, LanesKeepTheirTick, TakenByTheNextTick};

/// Within a tick a lane holds at most 64 items, whatever the order of turns.
pub fn lanes_hold_few()
    ensures { LanesHoldFew }
{}

/// After a tick it holds only what was put in that tick, at most 32 items.
pub fn lanes_keep_their_tick()
    ensures { LanesKeepTheirTick }
{}

/// What was put by the end of a tick, each task has taken by the end of the next.
pub fn taken_by_the_next_tick()
    ensures { TakenByTheNextTick }
{}
