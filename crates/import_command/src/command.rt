//! Importing a file into the register of a site.

ghost use Rattle.std.specs.Prelude.{◌≡◌, ◌≢◌, ◌≤◌, Err, IfSome};
ghost use Rattle.import_command.specs.Imports.{AnswersImport, TakesFile, TakesRows, kept_tables};
ghost use Rattle.import_command.specs.declared.import_stop.ImportStop.TheVariants.{Missing, Refused};
ghost use Rattle.named_files.specs.declared.file_stop.FileStop.TheVariants.{ReadFault};
ghost use Rattle.panel_edges.specs.Faults.{Rose};
ghost use Rattle.panel_edges.specs.Shelves.{file_of};
ghost use Rattle.program_status.specs.Statuses.{BlamesKeeper, BlamesReads, BlamesWrites, IsSilentWithoutMemory};
ghost use Rattle.program_status.specs.Statuses.{number_of};
ghost use Rattle.register_import.specs.declared.refusal.ImportRefusal.TheVariants.{KeeperFault};
ghost use Rattle.site_commands.specs.Files.{files_of};
ghost use Rattle.site_types.specs.Valid.{IsValid};

use crate::ending::tell;
use crate::import_stop::ImportStop;
use named_files::fetch_named;
use panel_edges::{Shelf, Sink};
use program_status::{Outcome, Status};
use register_import::{Imported, import_csv};
use service_keepers::Keeper;
use site_commands::{load, stop_with};
use site_types::Site;
use std::alloc::Global;

/// Puts the rows of a file into the register of a site, and tells how many visits and tests the file has, or why it
/// isn't imported.
pub fn import_file<F: Shelf, K: Sink, R: Keeper>(
    alloc: Global,
    site_name: &str,
    file_name: &str,
    shelf: &mut F,
    out: &mut K,
    keeper: &mut R,
) -> Outcome
    ensures answers { AnswersImport (files_of F.files F.faults shelf.old shelf.new) site_name.now
        file_name.now (kept_tables R.tables keeper.old keeper.new) (K.written out.old)
        (K.written out.new) result }
    ensures read { BlamesReads result (F.faults shelf.old) (F.faults shelf.new) }
    ensures write { BlamesWrites result (K.write_faults out.old) (K.write_faults out.new) }
    ensures memory { IsSilentWithoutMemory result (K.written out.old) (K.written out.new) }
    ensures keeper { BlamesKeeper result (R.faults keeper.old) (R.faults keeper.new) }
    ensures disk { result.status ≢ number_of Status.DiskFault }
    ensures store { result.store_failures ≡ 0 }
{
    match load(alloc, site_name, shelf) {
        Ok(loaded) => {
            let taken = take_file(alloc, &loaded.site, file_name, shelf, keeper);
            tell(file_name, &taken, out)
        }
        Err(stop) => stop_with(&stop, out),
    }
}

// Puts the rows of the file of a name into the register.
fn take_file<F: Shelf, R: Keeper>(
    alloc: Global,
    site: &Site,
    name: &str,
    shelf: &mut F,
    keeper: &mut R,
) -> Result<Imported, ImportStop>
    requires { IsValid site.now }
    ensures takes { IfSome (F.files shelf.old) (λ held. TakesFile
        (Rose (F.faults shelf.old) (F.faults shelf.new)) site.now (file_of name.now held)
        (R.tables keeper.old) (R.tables keeper.new) result) }
    ensures read { result ≡ Err (Missing ReadFault)
        → Rose (F.faults shelf.old) (F.faults shelf.new) }
    ensures keeper { result ≡ Err (Refused KeeperFault)
        → Rose (R.faults keeper.old) (R.faults keeper.new) }
    ensures later { F.faults shelf.old ≤ F.faults shelf.new }
{
    match fetch_named(alloc, name, shelf) {
        Ok(bytes) => take_rows(alloc, site, bytes.as_slice(), keeper),
        Err(stop) => Err(ImportStop::Missing(stop)),
    }
}

// Puts these rows into the register.
fn take_rows<R: Keeper>(
    alloc: Global,
    site: &Site,
    bytes: &[u8],
    keeper: &mut R,
) -> Result<Imported, ImportStop>
    requires { IsValid site.now }
    ensures takes { TakesRows site.now bytes.now (R.tables keeper.old) (R.tables keeper.new)
        result }
    ensures keeper { result ≡ Err (Refused KeeperFault)
        → Rose (R.faults keeper.old) (R.faults keeper.new) }
    ensures read { result ≢ Err (Missing ReadFault) }
{
    match import_csv(alloc, site, keeper, bytes) {
        Ok(imported) => Ok(imported),
        Err(refusal) => Err(ImportStop::Refused(refusal)),
    }
}
