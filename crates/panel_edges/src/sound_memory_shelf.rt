ghost use Rattle.std.specs.Prelude.{◌≡◌, ◌≢◌, Some, Err, map, IfOk};
ghost use Rattle.panel_edges.specs.Shelves.{file_of, file_view, Fetched, Filled};

use crate::fetching::{FetchFault, Found};
use crate::no_memory::NoMemory;
use crate::shelf_file::{ShelfFile, fetch_from};
use crate::shelves::Shelf;
use std::alloc::Global;

/// Files in memory whose fetches never fail. Of two files of one name the first is found.
#[derive(Drop)]
pub struct SoundMemoryShelf {
    pub files: Vec<ShelfFile>,
    alloc: Global,
}

impl SoundMemoryShelf {
    /// Keeps the allocator, from which each fetch takes the bytes that it hands out.
    pub fn new(alloc: Global, files: Vec<ShelfFile>) -> Result<SoundMemoryShelf, NoMemory>
        ensures { IfOk result (λ s. s.files.items ≡ files.items) }
    {
        Ok(SoundMemoryShelf { files, alloc })
    }
}

impl Shelf for SoundMemoryShelf {
    ghost files = { λ s. Some (map file_view s.files.items) };

    ghost faults = { λ s. 0 };

    fn fetch(&mut self, name: &str, into: &mut Vec<u8>) -> Result<Found, FetchFault>
        ensures told { Fetched (file_of name.now (map file_view self.old.files.items)) result
            into.new.items }
        ensures into { Filled result into.old.items into.new.items }
        ensures sound { result ≢ Err FetchFault.Failed }
        ensures files { self.new.files.items ≡ self.old.files.items }
    {
        fetch_from(self.alloc, &self.files, name, into)
    }
}
