ghost use Rattle.std.specs.Prelude.{◌≤◌, []};
ghost use Rattle.tick_units.specs.Ticks.{last_tick};
ghost use Rattle.retained_journal.specs.Images.{Stands};
ghost use Rattle.keep_turn.specs.Turns.{MakesTurn, MayCommit};

use crate::store::Store;
use panel_edges::Disk;
use retained_journal::{Batch, Journal};

/// The turn of Keep, with the changes that it is to keep; none where nothing is to be kept.
pub fn keep_turn<D: Disk>(journal: &mut Journal, disk: &mut D, batch: &Batch) -> Store
    requires stands { Stands D.honest D.images disk.old journal.old }
    requires batch { MayCommit journal.old.wide batch.now.items }
    requires few { journal.old.tried ≤ last_tick }
    ensures { MakesTurn D.honest D.images D.moment D.left_since D.faults disk.old disk.new
        batch.now.items journal.old result journal.new }
{
    if batch.is_empty() {
        idle_turn(journal, disk)
    } else {
        match journal.commit(disk, batch) {
            Ok(()) => Store::Kept,
            Err(_) => Store::Failed,
        }
    }
}

/// The turn of Keep where nothing is to be kept.
pub fn idle_turn<D: Disk>(journal: &mut Journal, disk: &mut D) -> Store
    requires { Stands D.honest D.images disk.old journal.old }
    ensures { MakesTurn D.honest D.images D.moment D.left_since D.faults disk.old disk.new
        [] journal.old result journal.new }
{
    match journal.mend(disk) {
        Ok(()) => Store::Idle,
        Err(_) => Store::Failed,
    }
}
