//! The bytes of a file.

ghost use Rattle.std.specs.Prelude.{◌≡◌, ◌≤◌, Err, IfErr, IfOk, IfSome};
ghost use Rattle.named_files.specs.Fetched.{HasNoBytes, IsWhole};
ghost use Rattle.named_files.specs.declared.file_stop.FileStop.TheVariants.{ReadFault};
ghost use Rattle.panel_edges.specs.Faults.{Rose};
ghost use Rattle.panel_edges.specs.Shelves.{file_of};

use crate::file_stop::FileStop;
use panel_edges::{FetchFault, Found, Shelf};
use std::alloc::Global;

/// The bytes under a name.
///
/// # Errors
///
/// Where there are none, or more than a file may have; where the shelf fails; where memory is refused.
pub fn fetch_named<F: Shelf>(alloc: Global, name: &str, shelf: &mut F) -> Result<Vec<u8>, FileStop>
    ensures ok { IfSome (F.files shelf.old)
        (λ held. IfOk result (λ bytes. IsWhole (file_of name.now held) bytes.items)) }
    ensures err { IfSome (F.files shelf.old) (λ held. IfErr result
        (HasNoBytes (Rose (F.faults shelf.old) (F.faults shelf.new)) (file_of name.now held))) }
    ensures read { result ≡ Err ReadFault → Rose (F.faults shelf.old) (F.faults shelf.new) }
    ensures later { F.faults shelf.old ≤ F.faults shelf.new }
    ensures files { F.files shelf.new ≡ F.files shelf.old }
{
    let mut bytes = Vec::new(alloc);
    match shelf.fetch(name, &mut bytes) {
        Ok(Found::Here) => Ok(bytes),
        Ok(Found::Absent) | Err(FetchFault::TooLong) => Err(FileStop::NoFile),
        Err(FetchFault::Failed) => Err(FileStop::ReadFault),
        Err(FetchFault::NoMemory) => Err(FileStop::NoMemory),
    }
}
