ghost use Rattle.later_operations.specs.Facts.{FactsStay, LatestFactsStay, ReleasedStays};

/// What is done in a tick or later changes none of the facts of an Effect turn made up to that tick.
pub fn facts_stay()
    ensures { FactsStay }
{}

/// What is done in a tick or later changes none of the facts of the latest Effect turn up to that tick.
pub fn latest_facts_stay()
    ensures { LatestFactsStay }
{}

/// What is done in a tick or later leaves the zones that were released for the latest Effect turn up to that tick.
pub fn released_stays()
    ensures { ReleasedStays }
{}
