//! Telling what came of an import.

ghost use Rattle.std.specs.Prelude.{◌≡◌, Err};
ghost use Rattle.import_command.specs.Endings.{import_status, import_text, rows_status, rows_line};
ghost use Rattle.import_command.specs.declared.import_stop.ImportStop.TheVariants.{Missing, Refused};
ghost use Rattle.named_files.specs.declared.file_stop.FileStop.TheVariants.{ReadFault};
ghost use Rattle.program_status.specs.Statuses.{BlamesWrites, IsSilentWithoutMemory, number_of};
ghost use Rattle.register_import.specs.declared.refusal.ImportRefusal.TheVariants.{KeeperFault};
ghost use Rattle.site_commands.specs.Commands.{Tells};

use crate::import_stop::ImportStop;
use crate::lines::{imported_line, row_line};
use named_files::tell_no_file;
use panel_edges::Sink;
use program_status::{Outcome, Status, say};
use register_import::{ImportRefusal, Imported};

// Ends the command with what came of the file of a name.
pub(crate) fn tell<K: Sink>(
    name: &str,
    taken: &Result<Imported, ImportStop>,
    out: &mut K,
) -> Outcome
    ensures tells { Tells (import_status taken.now) (import_text name.now taken.now)
        (K.written out.old) (K.written out.new) result }
    ensures read { result.status ≡ number_of Status.ReadFault
        → taken.now ≡ Err (Missing ReadFault) }
    ensures keeper { result.status ≡ number_of Status.KeeperFault
        → taken.now ≡ Err (Refused KeeperFault) }
    ensures write { BlamesWrites result (K.write_faults out.old) (K.write_faults out.new) }
    ensures memory { IsSilentWithoutMemory result (K.written out.old) (K.written out.new) }
{
    match taken {
        Ok(imported) => {
            let line = imported_line(imported);
            say(line.as_str().as_bytes(), Status::Done, 0, out)
        }
        Err(ImportStop::Missing(stop)) => tell_no_file(name, *stop, out),
        Err(ImportStop::Refused(refusal)) => tell_refusal(*refusal, out),
    }
}

// Ends the command with why its rows aren't imported, or not all of them.
fn tell_refusal<K: Sink>(refusal: ImportRefusal, out: &mut K) -> Outcome
    ensures tells { Tells (rows_status refusal) (rows_line refusal) (K.written out.old)
        (K.written out.new) result }
    ensures write { BlamesWrites result (K.write_faults out.old) (K.write_faults out.new) }
    ensures memory { IsSilentWithoutMemory result (K.written out.old) (K.written out.new) }
{
    match refusal {
        ImportRefusal::Row { row, why } => {
            let line = row_line(row, why);
            say(line.as_str().as_bytes(), Status::BadRow, 0, out)
        }
        ImportRefusal::KeeperFault => say(b"fault keeper\n", Status::KeeperFault, 0, out),
        ImportRefusal::NoMemory => Outcome::after(Status::NoMemory, 0),
    }
}
