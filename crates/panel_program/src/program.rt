ghost use Rattle.std.specs.Prelude.{◌≡◌, ◌⊎◌, false};
ghost use Rattle.import_command.specs.Imports.{kept_tables};
ghost use Rattle.journal_move.specs.Disks.{Spares};
ghost use Rattle.panel_edges.specs.Faults.{Rose};
ghost use Rattle.panel_program.specs.Commands.{Answers, AnswersIfImport, AnswersIfServing, AnswersRun};
ghost use Rattle.panel_program.specs.Commands.{AnswersIfNode, AsksNothing, BlamesDoorIfNode, BlamesDoorIfServing};
ghost use Rattle.panel_program.specs.Commands.{ServesNothing, WithoutMemoryIfNode, WorksNothing};
ghost use Rattle.panel_program.specs.Commands.{IsImport, KeepsNothing, MovesNothing, RunsNothing, call_disks};
ghost use Rattle.site_run.specs.PowerCuts.{disk_of};
ghost use Rattle.panel_program.specs.Runs.{streams_of};
ghost use Rattle.program_status.specs.Statuses.{BlamesDisk, BlamesKeeper, BlamesWrites, IsSilentWithoutMemory};
ghost use Rattle.program_status.specs.Statuses.{number_of};
ghost use Rattle.desk_register.specs.Replies.{sides_of};
ghost use Rattle.desk_doors.specs.Passing.{door_sides};
ghost use Rattle.serving_ends.specs.Ends.{BlamesStores};
ghost use Rattle.site_commands.specs.Files.{files_of};

use crate::command::{Command, command_of};
use crate::drilling::run_drill;
use crate::reading::run_site;
use audit_command::audit_files;
use desk_doors::Door;
use import_command::import_file;
use journal_move::move_journal;
use node_command::serve_node;
use panel_edges::{Disk, Shelf, Sink, Source};
use program_status::{Outcome, Status};
use program_usage::tell_usage;
use serve_command::serve_site;
use service_keepers::Keeper;
use site_commands::{load, stop_with, tell_counts, tell_matrix};
use std::alloc::Global;

/// Does what the words ask for. All that is said goes to `out`, refusals too. A run keeps its journal on `disk`; a move
/// opens that of the old site there and makes that of the new one on `target`. An audit judges one file by another. An
/// import puts its rows into the register of `keeper`. Serving answers the connections that `door` gives, a whole site
/// over that register, one panel by itself over what comes in frames.
///
/// The status of the outcome is the number of a [`Status`]. Where memory ran out nothing was written.
pub fn panel<F: Shelf, S: Source, K: Sink, D: Disk, G: Door, R: Keeper>(
    alloc: Global,
    words: &[String],
    shelf: &mut F,
    input: &mut S,
    out: &mut K,
    disk: &mut D,
    target: &mut D,
    door: &mut G,
    keeper: &mut R,
) -> Outcome
    requires { G.is_out door.old ≡ false }
    ensures answers { Answers words.now (files_of F.files F.faults shelf.old shelf.new) (call_disks
        D.seen D.honest D.images D.moment D.left_since disk.old disk.new target.old target.new)
        (streams_of S.left S.read_faults K.written input.old input.new out.old out.new) result }
    ensures imports { AnswersIfImport words.now (files_of F.files F.faults shelf.old shelf.new)
        (kept_tables R.tables keeper.old keeper.new) (K.written out.old) (K.written out.new)
        result }
    ensures serves { AnswersIfServing words.now (files_of F.files F.faults shelf.old shelf.new)
        (disk_of D.seen D.honest D.images D.moment D.left_since disk.old disk.new) (door_sides
        G.waiting G.handed door.old door.new) (sides_of R.tables R.faults keeper.old keeper.new)
        (K.written out.old) (K.written out.new) result }
    ensures nodes { AnswersIfNode words.now (files_of F.files F.faults shelf.old shelf.new)
        (disk_of D.seen D.honest D.images D.moment D.left_since disk.old disk.new) (door_sides
        G.waiting G.handed door.old door.new) (K.written out.old) (K.written out.new) result }
    ensures input_alone { RunsNothing words.now → input.new ≡ input.old }
    ensures disk_alone { KeepsNothing words.now → disk.new ≡ disk.old }
    ensures target_alone { MovesNothing words.now → target.new ≡ target.old }
    ensures door_alone { ServesNothing words.now → door.new ≡ door.old }
    ensures keeper_alone { AsksNothing words.now → keeper.new ≡ keeper.old }
    ensures disk_spared { WorksNothing words.now → Spares D.seen D.honest D.images D.moment
        D.left_since disk.old disk.new }
    ensures target_spared { Spares D.seen D.honest D.images D.moment D.left_since
        target.old target.new }
    ensures read { result.status ≡ number_of Status.ReadFault
        → Rose (F.faults shelf.old) (F.faults shelf.new)
        ⊎ Rose (S.read_faults input.old) (S.read_faults input.new) }
    ensures write { BlamesWrites result (K.write_faults out.old) (K.write_faults out.new) }
    ensures memory { IsSilentWithoutMemory result (K.written out.old) (K.written out.new) }
    ensures before_target { result.status ≡ number_of Status.NoMemory → target.new ≡ target.old }
    ensures disk { MovesNothing words.now
        → BlamesDisk result (D.faults disk.old) (D.faults disk.new) }
    ensures disks { result.status ≡ number_of Status.DiskFault
        → Rose (D.faults disk.old) (D.faults disk.new)
        ⊎ Rose (D.faults target.old) (D.faults target.new) }
    ensures stores { BlamesStores result (D.faults disk.old) (D.faults disk.new) }
    ensures door { BlamesDoorIfServing words.now result (G.faults door.old) (G.faults door.new) }
    ensures node_door { BlamesDoorIfNode words.now result (G.faults door.old)
        (G.faults door.new) }
    ensures before_door { WithoutMemoryIfNode words.now result (door.new ≡ door.old) }
    ensures keeper { IsImport words.now
        → BlamesKeeper result (R.faults keeper.old) (R.faults keeper.new) }
{
    match command_of(words) {
        Command::Usage => tell_usage(out),
        Command::Check => tell_counts(alloc, words[1].as_str(), shelf, out),
        Command::Run => run(alloc, words[1].as_str(), shelf, input, out, disk),
        Command::Matrix => tell_matrix(alloc, words[1].as_str(), shelf, out),
        Command::Drill { seed, ticks } => run_drill(alloc, seed, ticks, out),
        Command::Move => move_journal(
            alloc,
            words[1].as_str(),
            words[2].as_str(),
            shelf,
            out,
            disk,
            target,
        ),
        Command::Audit => {
            let (site, record, text) = (&words[1], &words[2], &words[3]);
            audit_files(
                alloc,
                site.as_str(),
                record.as_str(),
                text.as_str(),
                shelf,
                out,
            )
        }
        Command::Import => {
            let (site, file) = (&words[1], &words[2]);
            import_file(alloc, site.as_str(), file.as_str(), shelf, out, keeper)
        }
        Command::Serve { port, count } => {
            let name = words[1].as_str();
            serve_site(alloc, name, port, count, shelf, out, disk, door, keeper)
        }
        Command::Node { panel, port, count } => {
            let name = words[1].as_str();
            serve_node(alloc, name, panel, port, count, shelf, out, disk, door)
        }
    }
}

// Runs a site over the record that is read.
fn run<F: Shelf, S: Source, K: Sink, D: Disk>(
    alloc: Global,
    name: &str,
    shelf: &mut F,
    input: &mut S,
    out: &mut K,
    disk: &mut D,
) -> Outcome
    ensures answers { AnswersRun name.now (files_of F.files F.faults shelf.old shelf.new)
        (disk_of D.seen D.honest D.images D.moment D.left_since disk.old disk.new)
        (streams_of S.left S.read_faults K.written input.old input.new out.old out.new) result }
    ensures read { result.status ≡ number_of Status.ReadFault
        → Rose (F.faults shelf.old) (F.faults shelf.new)
        ⊎ Rose (S.read_faults input.old) (S.read_faults input.new) }
    ensures write { BlamesWrites result (K.write_faults out.old) (K.write_faults out.new) }
    ensures memory { IsSilentWithoutMemory result (K.written out.old) (K.written out.new) }
    ensures disk { BlamesDisk result (D.faults disk.old) (D.faults disk.new) }
    ensures stores { BlamesStores result (D.faults disk.old) (D.faults disk.new) }
{
    match load(alloc, name, shelf) {
        Ok(loaded) => run_site(alloc, loaded, input, out, disk),
        Err(stop) => stop_with(&stop, out),
    }
}
