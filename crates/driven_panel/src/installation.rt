use panel_core::System;
use panel_edges::MemoryDisk;
use retained_journal::Journal;

/// A system with its journal, over a disk in memory.
#[derive(Drop)]
pub struct Installation {
    pub system: System,
    pub journal: Journal,
    pub disk: MemoryDisk,
    /// How many events happened.
    pub events: u64,
}
