ghost use Rattle.std.specs.Prelude.{◌≡◌, ◌↔◌, Some, Err, map, IfOk};
ghost use Rattle.panel_edges.specs.Faults.{HasFetchCause, IsListed, counted};
ghost use Rattle.panel_edges.specs.Shelves.{file_of, file_view, Fetched, Filled};

use crate::call_counts::count_call;
use crate::fetching::{FetchFault, Found};
use crate::no_memory::NoMemory;
use crate::shelf_file::{ShelfFile, fetch_from};
use crate::shelves::Shelf;
use std::alloc::Global;

/// Files in memory. The fetches whose numbers, from 1, are listed fail, and no other. Of two files of one
/// name the first is found.
#[derive(Drop)]
pub struct MemoryShelf {
    pub files: Vec<ShelfFile>,
    pub fails: Vec<u64>,
    /// How many fetches there were, which stands at its type's last value.
    pub calls: u64,
    pub faults: u64,
    alloc: Global,
}

impl MemoryShelf {
    /// Keeps the allocator, from which each fetch takes the bytes that it hands out.
    pub fn new(
        alloc: Global,
        files: Vec<ShelfFile>,
        fails: Vec<u64>,
    ) -> Result<MemoryShelf, NoMemory>
        ensures files { IfOk result (λ s. s.files.items ≡ files.items) }
        ensures fails { IfOk result (λ s. s.fails.items ≡ fails.items) }
        ensures counts { IfOk result (λ s. (s.calls ≡ 0) × (s.faults ≡ 0)) }
    {
        Ok(MemoryShelf {
            files,
            fails,
            calls: 0,
            faults: 0,
            alloc,
        })
    }
}

impl Shelf for MemoryShelf {
    ghost files = { λ s. Some (map file_view s.files.items) };

    ghost faults = { λ s. s.faults };

    fn fetch(&mut self, name: &str, into: &mut Vec<u8>) -> Result<Found, FetchFault>
        ensures told { Fetched (file_of name.now (map file_view self.old.files.items)) result
            into.new.items }
        ensures into { Filled result into.old.items into.new.items }
        ensures cause { HasFetchCause self.old.faults self.new.faults result }
        // It fails exactly where the call's number is listed.
        ensures fails { (result ≡ Err FetchFault.Failed) ↔ IsListed self.old.fails.items
            self.old.calls }
        ensures calls { (self.new.calls ≡ counted self.old.calls)
            × (self.new.fails.items ≡ self.old.fails.items)
            × (self.new.files.items ≡ self.old.files.items) }
    {
        if count_call(&mut self.calls, &self.fails) {
            self.faults = self.faults.saturating_add(1);
            return Err(FetchFault::Failed);
        }
        fetch_from(self.alloc, &self.files, name, into)
    }
}
