ghost use Rattle.std.specs.Prelude.{◌≡◌, ◌≤◌, length};
ghost use Rattle.retained_journal.specs.Images.{Stands};
ghost use Rattle.keep_turn.specs.Turns.{LeavesJournal};

use crate::system::System;
use keep_batch::make_batch;
use keep_turn::{Store, idle_turn, keep_turn};
use panel_edges::Disk;
use panel_parts::entries_of;
use retained_journal::Journal;

impl System {
    ghost use Rattle.panel_parts.specs.Entries.{TellsEntries};
    ghost use Rattle.panel_core.specs.Keeping.{HasKeptAll, KeepsLeft, KeepsTurn, LeavesWithBatch, MayKeep};
    ghost use Rattle.panel_core.specs.Keeping.{MayNoteKept, NotesKept};
    ghost use Rattle.panel_core.specs.Marks.{MarksKept};

    // Keep has its turn: what isn't kept yet is committed, and the operations that wait get their answers.
    pub(crate) fn keep<D: Disk>(&mut self, journal: &mut Journal, disk: &mut D) -> Store
        requires may { MayKeep journal.old self.old }
        requires stands { Stands D.honest D.images disk.old journal.old }
        ensures kept { KeepsTurn self.old journal.old result journal.new self.new }
        ensures marks { MarksKept self.old journal.old result self.new.changed }
        ensures leaves { LeavesJournal D.honest D.images D.faults disk.old disk.new journal.old
            result journal.new }
        ensures moments { D.honest disk.old
            → LeavesWithBatch D.moment D.left_since disk.old disk.new self.old journal.old }
    {
        if self.has_kept_all() {
            self.keep_nothing(journal, disk)
        } else {
            self.keep_left(journal, disk)
        }
    }

    // Whether all entries are kept and no operation waits.
    fn has_kept_all(&self) -> bool
        requires { length self.now.panels.items ≤ 8 }
        ensures { result ≡ true → HasKeptAll self.now }
    {
        let panels = self.panels.as_slice();
        for place in 0..panels.len() {
            if panels[place].hold.counter_entries() != self.counts.entries[place] {
                return false;
            }
        }
        self.desk.waiting().is_empty()
    }

    // A turn that has nothing to keep: neither a counter nor what a panel shows changes.
    fn keep_nothing<D: Disk>(&mut self, journal: &mut Journal, disk: &mut D) -> Store
        requires may { MayKeep journal.old self.old }
        requires stands { Stands D.honest D.images disk.old journal.old }
        requires all { HasKeptAll self.old }
        ensures kept { KeepsTurn self.old journal.old result journal.new self.new }
        ensures marks { MarksKept self.old journal.old result self.new.changed }
        ensures leaves { LeavesJournal D.honest D.images D.faults disk.old disk.new journal.old
            result journal.new }
        ensures moments { D.honest disk.old
            → LeavesWithBatch D.moment D.left_since disk.old disk.new self.old journal.old }
    {
        let store = idle_turn(journal, disk);
        self.desk.keep(has_failed(store));
        store
    }

    // What is left to keep is committed and noted.
    #[cold]
    fn keep_left<D: Disk>(&mut self, journal: &mut Journal, disk: &mut D) -> Store
        requires may { MayKeep journal.old self.old }
        requires stands { Stands D.honest D.images disk.old journal.old }
        ensures kept { KeepsTurn self.old journal.old result journal.new self.new }
        ensures marks { MarksKept self.old journal.old result self.new.changed }
        ensures leaves { LeavesJournal D.honest D.images D.faults disk.old disk.new journal.old
            result journal.new }
        ensures moments { D.honest disk.old
            → LeavesWithBatch D.moment D.left_since disk.old disk.new self.old journal.old }
    {
        let entries = entries_of(self.panels.as_slice());
        let store = self.commit_left(&entries, journal, disk);
        let counters = self.counts.counters;
        self.note_kept(store, &entries, journal);
        let now_kept = self.counts.counters;
        self.mark_all(!are_same(&now_kept, &counters));
        store
    }

    // What is left to keep is committed: here alone room is made for a batch.
    fn commit_left<D: Disk>(&self, entries: &[u64; 8], journal: &mut Journal, disk: &mut D) -> Store
        requires may { MayKeep journal.old self.now }
        requires stands { Stands D.honest D.images disk.old journal.old }
        requires told { TellsEntries self.now.panels.items entries.now }
        ensures { KeepsLeft D.honest D.images D.moment D.left_since D.faults disk.old disk.new
            self.now journal.old result journal.new }
    {
        let left = self.counts.left_of(entries);
        let batch = make_batch(&self.site, &left, self.desk.waiting());
        keep_turn(journal, disk, &batch)
    }

    // The operations that wait get their answers, and what is kept is noted unless Keep failed.
    fn note_kept(&mut self, store: Store, entries: &[u64; 8], journal: &Journal)
        requires { MayNoteKept store self.old }
        ensures notes { NotesKept self.old store entries.now journal.now self.new }
        ensures same { self.new.changed ≡ self.old.changed }
    {
        let failed = has_failed(store);
        self.desk.keep(failed);
        self.counts.note(failed, entries, journal.kept());
    }
}

ghost use Rattle.std.specs.Prelude.{true};
ghost use Rattle.panel_core.specs.Keeping.{has_failed as answers_failed};

/// Whether a turn of Keep failed.
pub fn has_failed(store: Store) -> bool
    ensures { result ≡ answers_failed store }
{
    match store {
        Store::Failed => true,
        Store::Idle | Store::Kept => false,
    }
}

fn are_same(counters: &[u32; 8], others: &[u32; 8]) -> bool
    ensures { result ≡ true → counters.now ≡ others.now }
{
    counters == others
}
