//! The steps of a move.

ghost use Rattle.std.specs.Prelude.{◌≡◌, ◌≢◌, ◌⊎◌, ◌≤◌};
ghost use Rattle.journal_move.specs.Disks.{Spares, SparesBoth, disk_call, disks_of};
ghost use Rattle.journal_move.specs.Moves.{AnswersMove, EndsAtTarget, MovesBetween};
ghost use Rattle.journal_move.specs.Moves.{file_of_site};
ghost use Rattle.panel_edges.specs.Faults.{Rose};
ghost use Rattle.program_status.specs.Statuses.{BlamesDisk, BlamesReads, BlamesWrites, IsSilentWithoutMemory};
ghost use Rattle.program_status.specs.Statuses.{number_of};
ghost use Rattle.site_commands.specs.Files.{files_of};
ghost use Rattle.site_commands.specs.Sites.{IsLoaded};
ghost use Rattle.site_types.specs.Changes.{AreCounters};

use dropped_settings::moved_text;
use journal_refusals::{stop_at_journal, stop_at_target};
use panel_edges::{Disk, Shelf, Sink};
use program_status::{Outcome, Status, say};
use retained_journal::Journal;
use site_commands::{Loaded, load, stop_with, stop_with_old};
use site_types::{Retained, carry};
use std::alloc::Global;

/// Makes in `target` a journal for the new site with what the journal on `disk` keeps of the old one, and tells what
/// was dropped and the numbers set. `target` is made after all memory was taken.
#[tactic(auto, using(crate::proofs::Sparing::spares_alone))]
pub fn move_journal<F: Shelf, K: Sink, D: Disk>(
    alloc: Global,
    old_name: &str,
    new_name: &str,
    shelf: &mut F,
    out: &mut K,
    disk: &mut D,
    target: &mut D,
) -> Outcome
    ensures answers { AnswersMove old_name.now new_name.now (files_of F.files F.faults shelf.old
        shelf.new) (disks_of D.seen D.honest D.images disk.old disk.new target.old target.new)
        (K.written out.old) (K.written out.new) result }
    ensures read { BlamesReads result (F.faults shelf.old) (F.faults shelf.new) }
    ensures write { BlamesWrites result (K.write_faults out.old) (K.write_faults out.new) }
    ensures disk { result.status ≡ number_of Status.DiskFault
        → Rose (D.faults disk.old) (D.faults disk.new)
        ⊎ Rose (D.faults target.old) (D.faults target.new) }
    ensures memory { IsSilentWithoutMemory result (K.written out.old) (K.written out.new) }
    ensures before_target { result.status ≡ number_of Status.NoMemory → target.new ≡ target.old }
    ensures ticks { (result.ticks ≡ 0) × (result.store_failures ≡ 0) }
    ensures journal { Spares D.seen D.honest D.images D.moment D.left_since disk.old disk.new }
    ensures spares { Spares D.seen D.honest D.images D.moment D.left_since
        target.old target.new }
    ensures later { D.faults disk.old ≤ D.faults disk.new }
{
    let old = match load(alloc, old_name, shelf) {
        Ok(old) => old,
        Err(stop) => return stop_with_old(&stop, out),
    };
    match load(alloc, new_name, shelf) {
        Ok(new) => move_between(alloc, &old, &new, out, disk, target),
        Err(stop) => stop_with(&stop, out),
    }
}

// Opens the journal for the old site and moves what it keeps.
#[tactic(auto, using(crate::proofs::Sparing::spares_alone))]
fn move_between<K: Sink, D: Disk>(
    alloc: Global,
    old: &Loaded,
    new: &Loaded,
    out: &mut K,
    disk: &mut D,
    target: &mut D,
) -> Outcome
    requires old { IsLoaded old.now }
    requires new { IsLoaded new.now }
    ensures moves { MovesBetween (file_of_site old.now) (file_of_site new.now)
        (disks_of D.seen D.honest D.images disk.old disk.new target.old target.new)
        (K.written out.old) (K.written out.new) result }
    ensures read { result.status ≢ number_of Status.ReadFault }
    ensures write { BlamesWrites result (K.write_faults out.old) (K.write_faults out.new) }
    ensures memory { IsSilentWithoutMemory result (K.written out.old) (K.written out.new) }
    ensures ticks { (result.ticks ≡ 0) × (result.store_failures ≡ 0) }
    ensures spares { SparesBoth D.seen D.honest D.images D.moment D.left_since D.faults
        disk.old disk.new target.old target.new result }
{
    match Journal::open(disk, old.digest, old.site.format == 2) {
        Ok((journal, _)) => move_kept(alloc, old, new, journal.kept(), out, target),
        Err(refusal) => stop_at_journal(&refusal, out),
    }
}

// Makes the new journal with what the new site takes of what was kept, and tells the rest.
#[tactic(auto, using(crate::proofs::Sparing::spares_alone))]
fn move_kept<K: Sink, D: Disk>(
    alloc: Global,
    old: &Loaded,
    new: &Loaded,
    kept: &Retained,
    out: &mut K,
    target: &mut D,
) -> Outcome
    requires old { IsLoaded old.now }
    requires new { IsLoaded new.now }
    requires counters { AreCounters kept.now.counters }
    ensures ends { EndsAtTarget (file_of_site old.now) (file_of_site new.now) kept.now
        (disk_call D.seen D.honest D.images target.old target.new)
        (K.written out.old) (K.written out.new) result }
    ensures read { result.status ≢ number_of Status.ReadFault }
    ensures write { BlamesWrites result (K.write_faults out.old) (K.write_faults out.new) }
    ensures disk { BlamesDisk result (D.faults target.old) (D.faults target.new) }
    ensures memory { IsSilentWithoutMemory result (K.written out.old) (K.written out.new) }
    ensures before_target { result.status ≡ number_of Status.NoMemory → target.new ≡ target.old }
    ensures ticks { (result.ticks ≡ 0) × (result.store_failures ≡ 0) }
    ensures spares { Spares D.seen D.honest D.images D.moment D.left_since
        target.old target.new }
{
    let carried = carry(&old.site, &new.site, kept);
    let Ok(text) = moved_text(alloc, &old.site, &new.site, kept, &carried) else {
        return Outcome::after(Status::NoMemory, 0);
    };
    match Journal::create(target, new.digest, new.site.format == 2, &carried) {
        Ok(()) => say(text.as_slice(), Status::Done, 0, out),
        Err(refusal) => stop_at_target(&refusal, out),
    }
}
