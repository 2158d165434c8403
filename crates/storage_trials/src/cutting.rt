//! Disks in memory that log their calls, and what the journals open to that a cut leaves on them.

use crate::opening::opened;
use anyhow::{Result, bail};
use panel_edges::{MOST_DISK_BYTES, MemoryDisk};
use std::alloc::Global;

/// How many bytes a cut leaves of each write since the last sync: none, the first, some and all.
const LEFT: [usize; 4] = [0, 1, 300, 1_000];

/// A file that a cut leaves.
#[derive(Clone, Copy)]
pub(crate) struct Cut {
    /// How many calls of the log were made.
    pub(crate) calls: usize,
    /// How many bytes are left of each write since the last sync.
    pub(crate) left: usize,
}

/// A disk that holds a file, with a log of so many calls and written bytes. The calls of these numbers fail.
pub(crate) fn memory_disk(
    alloc: Global,
    file: Vec<u8>,
    calls: usize,
    written: usize,
    fails: Vec<u64>,
) -> Result<MemoryDisk> {
    if file.len() > MOST_DISK_BYTES {
        bail!("too long a file");
    }
    match MemoryDisk::new(alloc, file, calls, written, fails) {
        Ok(disk) => Ok(disk),
        Err(_) => bail!("no memory"),
    }
}

/// The first cut after so many calls of the log, or after more, that leaves a journal which doesn't open to one of two
/// counters.
pub(crate) fn first_loss(
    alloc: Global,
    disk: &MemoryDisk,
    since: usize,
    counters: [u32; 2],
) -> Result<Option<Cut>> {
    for calls in since..=disk.log.len() {
        for left in LEFT {
            let cut = Cut { calls, left };
            if !opens_to(alloc, disk, cut, counters)? {
                return Ok(Some(cut));
            }
        }
    }
    Ok(None)
}

fn opens_to(alloc: Global, disk: &MemoryDisk, cut: Cut, counters: [u32; 2]) -> Result<bool> {
    let kept = vec![in alloc; cut.left; disk.log.len()]?;
    let Ok(file) = disk.cut(alloc, cut.calls, &kept) else {
        bail!("no memory");
    };
    match opened(alloc, file)? {
        Ok(counter) => Ok(counter == counters[0] || counter == counters[1]),
        Err(_) => Ok(false),
    }
}
