//! The files that a stop of the disk may leave, and what a run tells that is made over them.

use crate::called::{Called, call};
use crate::given::Given;
use crate::outside::SOUND;
use anyhow::{Result, bail};
use panel_edges::MemoryDisk;
use std::alloc::Global;

/// How many of the first bytes a stop leaves of writes that weren't synced: of the call before it, and of each write
/// before that one. None, one, a part of a cell's number, that and its changes, a half, all; the last write alone, and
/// all but that.
pub(crate) const WAYS: [(usize, usize); 8] = [
    (0, 0),
    (1, 1),
    (5, 5),
    (17, 17),
    (300, 300),
    (40_000, 40_000),
    (40_000, 0),
    (0, 40_000),
];

/// What a run without a tick tells over the file that is left where the disk stops after so many calls of its log.
pub(crate) fn reopened(
    alloc: Global,
    given: Given,
    disk: &MemoryDisk,
    calls: usize,
    way: (usize, usize),
) -> Result<Called> {
    let (last, earlier) = way;
    let mut left = vec![in alloc; earlier; disk.log.len()]?;
    if let Some(bytes) = left.get_mut(calls.saturating_sub(1)) {
        *bytes = last;
    }
    let Ok(image) = disk.cut(alloc, calls, left.as_slice()) else {
        bail!("no memory");
    };
    let given = Given {
        record: b"end\n".as_slice(),
        journal: image.as_slice(),
        ..given
    };
    call(alloc, given, SOUND)
}
