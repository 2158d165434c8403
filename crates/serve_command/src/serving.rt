//! Serving a site.

ghost use Rattle.std.specs.Prelude.{◌≡◌, ◌≢◌, false};
ghost use Rattle.desk_doors.specs.Passing.{door_sides};
ghost use Rattle.desk_register.specs.Replies.{sides_of};
ghost use Rattle.panel_parts.specs.Stands.{HasPlan};
ghost use Rattle.panel_edges.specs.Faults.{Rose};
ghost use Rattle.program_status.specs.Statuses.{BlamesDisk, BlamesReads, BlamesWrites};
ghost use Rattle.program_status.specs.Statuses.{IsSilentWithoutMemory};
ghost use Rattle.program_status.specs.Statuses.{number_of};
ghost use Rattle.retained_journal.specs.Images.{Stands as StandsOn};
ghost use Rattle.serve_command.specs.Serving.{AnswersServe, ServesFrom, ServesOver};
ghost use Rattle.serving_ends.specs.Ends.{BlamesServing, BlamesStores, IsCount};
ghost use Rattle.site_commands.specs.Files.{files_of};
ghost use Rattle.site_commands.specs.Sites.{IsLoaded};
ghost use Rattle.site_run.specs.Journals.{IsOpenFor};
ghost use Rattle.site_run.specs.PowerCuts.{disk_after, disk_of};
ghost use Rattle.site_types.specs.Valid.{IsValid};

use crate::counter::Counter;
use cause_effect::Plan;
use desk_doors::Door;
use journal_refusals::stop_at_journal;
use panel_edges::{Disk, Shelf, Sink};
use program_status::{Outcome, Status};
use retained_journal::Journal;
use service_keepers::Keeper;
use serving_ends::tell_end;
use site_commands::{Loaded, load, stop_with};
use site_types::Site;
use std::alloc::Global;

/// Serves the site of a name behind a door at a port: so many connections, or until a stop.
///
/// The status is that of a door fault where the door failed, before the first connection or behind some.
pub fn serve_site<F: Shelf, K: Sink, D: Disk, G: Door, R: Keeper>(
    alloc: Global,
    name: &str,
    port: u16,
    count: u32,
    shelf: &mut F,
    out: &mut K,
    disk: &mut D,
    door: &mut G,
    keeper: &mut R,
) -> Outcome
    requires count { IsCount count }
    requires out { G.is_out door.old ≡ false }
    ensures answers { AnswersServe name.now (files_of F.files F.faults shelf.old shelf.new)
        (disk_of D.seen D.honest D.images D.moment D.left_since disk.old disk.new) (door_sides
        G.waiting G.handed door.old door.new) (sides_of R.tables R.faults keeper.old keeper.new)
        count (K.written out.old) (K.written out.new) result }
    ensures read { BlamesReads result (F.faults shelf.old) (F.faults shelf.new) }
    ensures write { BlamesWrites result (K.write_faults out.old) (K.write_faults out.new) }
    ensures memory { IsSilentWithoutMemory result (K.written out.old) (K.written out.new) }
    ensures disk { BlamesDisk result (D.faults disk.old) (D.faults disk.new) }
    ensures stores { BlamesStores result (D.faults disk.old) (D.faults disk.new) }
    ensures door { result.status ≡ number_of Status.DoorFault
        → Rose (G.faults door.old) (G.faults door.new) }
{
    match load(alloc, name, shelf) {
        Ok(loaded) => serve_loaded(alloc, loaded, port, count, out, disk, door, keeper),
        Err(stop) => stop_with(&stop, out),
    }
}

// Opens the journal of a site, and serves it.
fn serve_loaded<K: Sink, D: Disk, G: Door, R: Keeper>(
    alloc: Global,
    loaded: Loaded,
    port: u16,
    count: u32,
    out: &mut K,
    disk: &mut D,
    door: &mut G,
    keeper: &mut R,
) -> Outcome
    requires loaded { IsLoaded loaded }
    requires count { IsCount count }
    requires out { G.is_out door.old ≡ false }
    ensures serves { ServesOver loaded.site loaded.digest (disk_of D.seen D.honest D.images
        D.moment D.left_since disk.old disk.new) (door_sides G.waiting G.handed door.old door.new)
        (sides_of R.tables R.faults keeper.old keeper.new)
        count (K.written out.old) (K.written out.new) result }
    ensures blames { BlamesServing result (D.faults disk.old) (D.faults disk.new)
        (G.faults door.old) (G.faults door.new) }
    ensures read { result.status ≢ number_of Status.ReadFault }
    ensures write { BlamesWrites result (K.write_faults out.old) (K.write_faults out.new) }
    ensures memory { IsSilentWithoutMemory result (K.written out.old) (K.written out.new) }
{
    let Loaded { site, plan, digest } = loaded;
    match Journal::open(disk, digest, site.format == 2) {
        Ok((journal, _)) => {
            serve_with(
                alloc, site, plan, port, count, journal, out, disk, door, keeper,
            )
        }
        Err(refusal) => stop_at_journal(&refusal, out),
    }
}

// Serves a site with the journal that was opened for it.
fn serve_with<K: Sink, D: Disk, G: Door, R: Keeper>(
    alloc: Global,
    site: Site,
    plan: Plan,
    port: u16,
    count: u32,
    journal: Journal,
    out: &mut K,
    disk: &mut D,
    door: &mut G,
    keeper: &mut R,
) -> Outcome
    requires valid { IsValid site }
    requires plan { HasPlan site plan }
    requires journal { IsOpenFor site journal.kept journal }
    requires stands { StandsOn D.honest D.images disk.old journal }
    requires count { IsCount count }
    requires out { G.is_out door.old ≡ false }
    ensures serves { ServesFrom site journal (disk_after D.seen D.honest D.images D.moment
        D.left_since disk.new) (door_sides G.waiting G.handed door.old door.new) (sides_of
        R.tables R.faults keeper.old keeper.new) count (K.written out.old) (K.written out.new)
        result }
    ensures read { result.status ≢ number_of Status.ReadFault }
    ensures write { BlamesWrites result (K.write_faults out.old) (K.write_faults out.new) }
    ensures memory { IsSilentWithoutMemory result (K.written out.old) (K.written out.new) }
    ensures disk { result.status ≢ number_of Status.DiskFault }
    ensures stores { BlamesStores result (D.faults disk.old) (D.faults disk.new) }
    ensures door { result.status ≡ number_of Status.DoorFault
        → Rose (G.faults door.old) (G.faults door.new) }
{
    let Ok(mut counter) = Counter::open(alloc, site, plan, journal) else {
        return Outcome::after(Status::NoMemory, 0);
    };
    let Ok(()) = counter.run.write_opening(out) else {
        return Outcome::after(Status::WriteFault, 0);
    };
    let end = counter.serve(alloc, port, count, door, disk, keeper);
    tell_end(end, counter.run.ticks(), counter.run.store_failures(), out)
}
