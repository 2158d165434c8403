//! Serving a panel of a site by itself.

ghost use Rattle.std.specs.Prelude.{◌≡◌, ◌≢◌, ◌≤◌, false};
ghost use Rattle.desk_doors.specs.Passing.{door_sides};
ghost use Rattle.node_command.specs.Serving.{AnswersNode, ServesPanelFrom, ServesPanelOver};
ghost use Rattle.panel_parts.specs.Stands.{HasPlan};
ghost use Rattle.panel_edges.specs.Faults.{Rose};
ghost use Rattle.panel_rules.specs.Moments.{IsPanel};
ghost use Rattle.program_status.specs.Statuses.{BlamesDisk, BlamesReads, BlamesWrites};
ghost use Rattle.program_status.specs.Statuses.{IsSilentWithoutMemory};
ghost use Rattle.program_status.specs.Statuses.{number_of};
ghost use Rattle.retained_journal.specs.Images.{Stands as StandsOn};
ghost use Rattle.serving_ends.specs.Ends.{BlamesServing, BlamesStores, IsCount};
ghost use Rattle.site_commands.specs.Files.{files_of};
ghost use Rattle.site_commands.specs.Sites.{IsLoaded};
ghost use Rattle.site_run.specs.Journals.{IsOpenFor};
ghost use Rattle.site_run.specs.PowerCuts.{disk_after, disk_of};
ghost use Rattle.site_types.specs.Valid.{IsValid};

use crate::connections::serve;
use cause_effect::Plan;
use desk_doors::Door;
use journal_refusals::stop_at_journal;
use node_desk::NodeDesk;
use panel_edges::{Disk, Shelf, Sink};
use program_status::{Outcome, Status};
use program_usage::tell_usage;
use retained_journal::Journal;
use serving_ends::tell_end;
use site_commands::{Loaded, load, stop_with};
use site_types::Site;
use std::alloc::Global;

/// Serves a panel of the site of a name by itself behind a door at a port: so many connections. A number that no panel
/// of the site has is answered with the usage.
///
/// The status is that of a door fault where the door failed, before the first connection or behind some.
pub fn serve_node<F: Shelf, K: Sink, D: Disk, G: Door>(
    alloc: Global,
    name: &str,
    panel: u8,
    port: u16,
    count: u32,
    shelf: &mut F,
    out: &mut K,
    disk: &mut D,
    door: &mut G,
) -> Outcome
    requires panel { 1 ≤ panel }
    requires count { IsCount count }
    requires out { G.is_out door.old ≡ false }
    ensures answers { AnswersNode name.now panel (files_of F.files F.faults shelf.old shelf.new)
        (disk_of D.seen D.honest D.images D.moment D.left_since disk.old disk.new) (door_sides
        G.waiting G.handed door.old door.new) count (K.written out.old) (K.written out.new) result }
    ensures read { BlamesReads result (F.faults shelf.old) (F.faults shelf.new) }
    ensures write { BlamesWrites result (K.write_faults out.old) (K.write_faults out.new) }
    ensures memory { IsSilentWithoutMemory result (K.written out.old) (K.written out.new) }
    ensures before_door { result.status ≡ number_of Status.NoMemory → door.new ≡ door.old }
    ensures disk { BlamesDisk result (D.faults disk.old) (D.faults disk.new) }
    ensures stores { BlamesStores result (D.faults disk.old) (D.faults disk.new) }
    ensures door { result.status ≡ number_of Status.DoorFault
        → Rose (G.faults door.old) (G.faults door.new) }
{
    match load(alloc, name, shelf) {
        Ok(loaded) => {
            if panel > loaded.site.panels {
                tell_usage(out)
            } else {
                serve_loaded(alloc, loaded, panel, port, count, out, disk, door)
            }
        }
        Err(stop) => stop_with(&stop, out),
    }
}

// Opens the journal of a panel of a site, and serves the panel.
fn serve_loaded<K: Sink, D: Disk, G: Door>(
    alloc: Global,
    loaded: Loaded,
    panel: u8,
    port: u16,
    count: u32,
    out: &mut K,
    disk: &mut D,
    door: &mut G,
) -> Outcome
    requires loaded { IsLoaded loaded }
    requires panel { IsPanel loaded.site.panels panel }
    requires count { IsCount count }
    requires out { G.is_out door.old ≡ false }
    ensures serves { ServesPanelOver loaded.site loaded.digest panel (disk_of D.seen D.honest
        D.images D.moment D.left_since disk.old disk.new) (door_sides G.waiting G.handed
        door.old door.new) count (K.written out.old) (K.written out.new) result }
    ensures read { result.status ≢ number_of Status.ReadFault }
    ensures write { BlamesWrites result (K.write_faults out.old) (K.write_faults out.new) }
    ensures memory { IsSilentWithoutMemory result (K.written out.old) (K.written out.new) }
    ensures before_door { result.status ≡ number_of Status.NoMemory → door.new ≡ door.old }
    ensures blames { BlamesServing result (D.faults disk.old) (D.faults disk.new)
        (G.faults door.old) (G.faults door.new) }
{
    let Loaded { site, plan, digest } = loaded;
    match Journal::open(disk, digest, site.format == 2) {
        Ok((journal, _)) => {
            serve_with(
                alloc, site, plan, digest, panel, port, count, journal, out, disk, door,
            )
        }
        Err(refusal) => stop_at_journal(&refusal, out),
    }
}

// Serves a panel of a site with the journal that was opened for it.
fn serve_with<K: Sink, D: Disk, G: Door>(
    alloc: Global,
    site: Site,
    plan: Plan,
    digest: [u8; 32],
    panel: u8,
    port: u16,
    count: u32,
    journal: Journal,
    out: &mut K,
    disk: &mut D,
    door: &mut G,
) -> Outcome
    requires valid { IsValid site }
    requires plan { HasPlan site plan }
    requires panel { IsPanel site.panels panel }
    requires journal { IsOpenFor site journal.kept journal }
    requires stands { StandsOn D.honest D.images disk.old journal }
    requires count { IsCount count }
    requires out { G.is_out door.old ≡ false }
    ensures serves { ServesPanelFrom site digest panel journal (disk_after D.seen D.honest
        D.images D.moment D.left_since disk.new) (door_sides G.waiting G.handed
        door.old door.new) count (K.written out.old) (K.written out.new) result }
    ensures read { result.status ≢ number_of Status.ReadFault }
    ensures write { BlamesWrites result (K.write_faults out.old) (K.write_faults out.new) }
    ensures memory { IsSilentWithoutMemory result (K.written out.old) (K.written out.new) }
    ensures before_door { result.status ≡ number_of Status.NoMemory → door.new ≡ door.old }
    ensures disk { result.status ≢ number_of Status.DiskFault }
    ensures stores { BlamesStores result (D.faults disk.old) (D.faults disk.new) }
    ensures door { result.status ≡ number_of Status.DoorFault
        → Rose (G.faults door.old) (G.faults door.new) }
{
    let Ok(mut desk) = NodeDesk::open(alloc, site, plan, digest, panel, journal) else {
        return Outcome::after(Status::NoMemory, 0);
    };
    let end = serve(&mut desk, port, count, door, disk);
    tell_end(end, desk.ticks(), desk.store_failures(), out)
}
