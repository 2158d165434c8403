ghost use Rattle.panel_program.specs.Successes.{WellMadeRunsSucceed};

use panel_edges::Disk;

/// **A run of a valid site over an accepted record, with a journal of that site or an empty file, comes to its end**:
/// where no call of shelf, input, output and disk fails its status is 0, or memory ran out before anything was written.
pub fn well_made_runs_succeed<D: Disk>()
    ensures { WellMadeRunsSucceed D.seen D.honest D.images D.moment D.left_since }
{}
