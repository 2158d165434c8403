ghost use Rattle.audit_laws.specs.RecordedMoments.{RecordsTellRuns, RunsAreRecorded};

/// What a record tells of a run, which is all but the failures of Keep, is a run, and has the same ticks, events,
/// operations, answers of points and turns.
pub fn records_tell_runs()
    ensures told { RecordsTellRuns }
    ensures run { RunsAreRecorded }
{}
