ghost use Rattle.std.specs.Prelude.{◌≡◌};
ghost use Rattle.retained_journal.specs.Images.{HasRoom, Stands};
ghost use Rattle.keep_turn.specs.Turns.{LeavesJournal};

use crate::node::Node;
use keep_turn::Store;
use panel_edges::Disk;
use retained_journal::Journal;

impl Node {
    ghost use Rattle.panel_node.specs.Keeping.{LeavesAfterTurns, LeavesInTurns, MakesAllTurns, MayTurnAll};

    /// Each seat of the site has its turn, in canonical order, with the journal that keeps what the panel keeps. Those
    /// of the other panels change nothing. The answer is that of Keep's turn: after any but a failure each file that
    /// a power cut may leave opens to what is kept.
    pub fn turns<D: Disk>(&mut self, journal: &mut Journal, disk: &mut D) -> Store
        requires may { MayTurnAll journal.old self.old }
        requires stands { Stands D.honest D.images disk.old journal.old }
        ensures turns { MakesAllTurns self.old journal.old result journal.new self.new }
        ensures digest { self.new.digest ≡ self.old.digest }
        ensures leaves { LeavesJournal D.honest D.images D.faults disk.old disk.new journal.old
            result journal.new }
        // A power cut leaves a front of the run: what is kept, or that with the batch of a turn of Keep that failed.
        ensures cut { D.honest disk.new → HasRoom journal.new
            → LeavesAfterTurns (D.images disk.new) self.old journal.old result }
        ensures moments { D.honest disk.old
            → LeavesInTurns D.moment D.left_since disk.old disk.new self.old journal.old }
    {
        self.own_turns();
        self.keep(journal, disk)
    }
}
