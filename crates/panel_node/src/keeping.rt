ghost use Rattle.std.specs.Prelude.{◌≡◌};
ghost use Rattle.retained_journal.specs.Images.{Stands};
ghost use Rattle.keep_turn.specs.Turns.{LeavesJournal};

use crate::node::Node;
use keep_batch::make_batch;
use keep_turn::{Store, keep_turn};
use panel_core::has_failed;
use panel_edges::Disk;
use retained_journal::{Batch, Journal};

impl Node {
    ghost use Rattle.panel_node.specs.Keeping.{IsLeftBatch, KeepsTurn, LeavesWithBatch, MayKeep, MayMakeBatch};
    ghost use Rattle.panel_node.specs.Keeping.{MayNoteKept, NotesKept, TellsOwnEntries};
    ghost use Rattle.panel_node.specs.Stands.{StandsForHistory};

    // Keep has its turn: what isn't kept yet is committed, and the operations that wait get their answers.
    pub(crate) fn keep<D: Disk>(&mut self, journal: &mut Journal, disk: &mut D) -> Store
        requires may { MayKeep journal.old self.old }
        requires stands { Stands D.honest D.images disk.old journal.old }
        ensures kept { KeepsTurn self.old journal.old result journal.new self.new }
        ensures digest { self.new.digest ≡ self.old.digest }
        ensures leaves { LeavesJournal D.honest D.images D.faults disk.old disk.new journal.old
            result journal.new }
        ensures moments { D.honest disk.old
            → LeavesWithBatch D.moment D.left_since disk.old disk.new self.old journal.old }
    {
        let entries = self.entries();
        let batch = self.left_batch(&entries);
        let store = keep_turn(journal, disk, &batch);
        self.note_kept(store, &entries, journal);
        store
    }

    // How often each panel entered the fire alarm condition since opening: the others never did.
    fn entries(&self) -> [u64; 8]
        requires { StandsForHistory self.now }
        ensures { TellsOwnEntries self.now result }
    {
        let mut entries = [0; 8];
        entries[self.panel as usize - 1] = self.parts.hold.counter_entries();
        entries
    }

    // What is left to keep.
    fn left_batch(&self, entries: &[u64; 8]) -> Batch
        requires may { MayMakeBatch self.now }
        requires told { TellsOwnEntries self.now entries.now }
        ensures { IsLeftBatch self.now result.items }
    {
        make_batch(
            &self.site,
            &self.counts.left_of(entries),
            self.desk.waiting(),
        )
    }

    // The operations that wait get their answers, and what is kept is noted unless Keep failed.
    fn note_kept(&mut self, store: Store, entries: &[u64; 8], journal: &Journal)
        requires { MayNoteKept store self.old }
        ensures notes { NotesKept self.old store entries.now journal.now self.new }
        ensures digest { self.new.digest ≡ self.old.digest }
    {
        let failed = has_failed(store);
        self.desk.keep(failed);
        self.counts.note(failed, entries, journal.kept());
    }
}
