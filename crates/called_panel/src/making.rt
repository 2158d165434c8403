use anyhow::{Result, bail};
use panel_edges::{MOST_DISK_BYTES, MemoryDisk, MemorySink};
use std::alloc::Global;

/// How much text a sink has room for.
const MOST_TEXT: usize = 20_000;

/// How many calls and written bytes the log of a disk has room for.
const MOST_CALLS: usize = 1_000;

const MOST_WRITTEN: usize = 125_000;

/// A sink with nothing written, of which one call fails.
pub fn sink_of(alloc: Global, failing: u64) -> Result<MemorySink> {
    match MemorySink::new(alloc, MOST_TEXT, vec![in alloc; failing]?) {
        Ok(sink) => Ok(sink),
        Err(_) => bail!("no memory"),
    }
}

/// A disk with the file of a journal, of which the calls of these numbers fail.
pub fn disk_of(alloc: Global, journal: &[u8], fails: Vec<u64>) -> Result<MemoryDisk> {
    if journal.len() > MOST_DISK_BYTES {
        bail!("a journal that is too long");
    }
    let journal = Vec::from_slice(alloc, journal)?;
    match MemoryDisk::new(alloc, journal, MOST_CALLS, MOST_WRITTEN, fails) {
        Ok(disk) => Ok(disk),
        Err(_) => bail!("no memory"),
    }
}
