ghost use Rattle.run_text.specs.Failures.{FailuresAreCounted, RecordedAreTheSame};

/// A run has as many failures of Keep as ticks in which it failed: each tick has one turn of Keep.
pub fn failures_are_counted()
    ensures { FailuresAreCounted }
{}

/// What a record tells of the ticks of a run, which is all but the failures, are as many ticks with the same orders.
pub fn recorded_are_the_same()
    ensures { RecordedAreTheSame }
{}
