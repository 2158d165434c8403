ghost use Rattle.std.specs.Prelude.{◌≡◌, ◌≢◌, Err, map, option_map};

use crate::fetching::{FetchFault, Found};
use crate::limits::MOST_FILE_BYTES;
use std::alloc::Global;

/// A file in memory.
#[derive(Drop)]
pub struct ShelfFile {
    pub name: String,
    pub bytes: Vec<u8>,
}

ghost use Rattle.panel_edges.specs.Shelves.{file_of, file_view, Fetched, Filled};

// Hands out a copy of the first file of that name, if there is one and it isn't too long.
pub(crate) fn fetch_from(
    alloc: Global,
    files: &[ShelfFile],
    name: &str,
    into: &mut Vec<u8>,
) -> Result<Found, FetchFault>
    ensures told { Fetched (file_of name.now (map file_view files.now)) result into.new.items }
    ensures into { Filled result into.old.items into.new.items }
    ensures sound { result ≢ Err FetchFault.Failed }
{
    let Some(bytes) = bytes_of(files, name) else {
        return Ok(Found::Absent);
    };
    if bytes.len() > MOST_FILE_BYTES {
        return Err(FetchFault::TooLong);
    }
    match Vec::from_slice(alloc, bytes) {
        Ok(copy) => {
            *into = copy;
            Ok(Found::Here)
        }
        Err(_) => Err(FetchFault::NoMemory),
    }
}

// The bytes of the first file of that name.
fn bytes_of<'a>(files: &'a [ShelfFile], name: &str) -> Option<&'a [u8]>
    ensures { option_map (λ bytes. bytes.now) result ≡ file_of name.now (map file_view files.now) }
{
    for file in files {
        if file.name.as_str() == name {
            return Some(&file.bytes);
        }
    }
    None
}
