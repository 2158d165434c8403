ghost use Rattle.panel_rules.specs.Records.{RecordsAreRuns, AskedOnceInARound};

/// A record whose ticks have an order of the site's seats each is a run, and each seat has had its turn in
/// its last tick.
pub fn records_are_runs()
    ensures { RecordsAreRuns }
{}

/// Each address is asked in one tick of a round, and in no other.
pub fn asked_once_in_a_round()
    ensures { AskedOnceInARound }
{}
