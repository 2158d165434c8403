//! Disks in memory.

use crate::cutting::memory_disk;
use crate::disk_steps::call;
use anyhow::{Result, bail};
use panel_edges::{DiskCall, MemoryDisk, SoundMemoryDisk};
use std::alloc::Global;
use trial_cases::{Lines, Words};

/// How much a cut leaves of each write since the last sync.
#[derive(Clone, Copy)]
enum Left {
    Nothing,
    Half,
    All,
}

/// What came of each call, and the files that a cut leaves after so many calls of the log: with each write since the
/// last sync absent, half and whole. The words are the text at first, and the room of the log in calls and bytes.
pub(crate) fn cut_disk(alloc: Global, mut words: Words, steps: &str) -> Result<String> {
    let start = Vec::from_slice(alloc, words.next().as_bytes())?;
    let calls = words.place()? as usize;
    let written = words.place()? as usize;
    let mut disk = memory_disk(alloc, start, calls, written, Vec::new(alloc))?;
    let mut lines = Lines::new(alloc);
    for step in steps.split(", ") {
        call(&mut disk, step, &mut lines)?;
    }
    lines.count("    faults: ", disk.faults);
    lines.say("\n");
    for calls in 0..=disk.log.len() {
        say_cuts(alloc, &disk, calls, &mut lines)?;
    }
    lines.done()
}

fn say_cuts(alloc: Global, disk: &MemoryDisk, calls: usize, lines: &mut Lines) -> Result<()> {
    lines.count("    cut after ", calls as u64);
    lines.say(":");
    for left in [Left::Nothing, Left::Half, Left::All] {
        let file = cut_text(alloc, disk, calls, left)?;
        lines.say(" ");
        lines.say(&file);
    }
    lines.say("\n");
    Ok(())
}

fn cut_text(alloc: Global, disk: &MemoryDisk, calls: usize, left: Left) -> Result<String> {
    let mut kept = Vec::new(alloc);
    for call in disk.log.iter() {
        kept.push(kept_of(call, left))?;
    }
    match disk.cut(alloc, calls, &kept) {
        Ok(file) => Ok(String::from_utf8(file)?),
        Err(_) => bail!("no memory"),
    }
}

// How many bytes of a call are left.
fn kept_of(call: &DiskCall, left: Left) -> usize {
    match (call, left) {
        (DiskCall::Wrote { count, .. }, Left::Half) => *count / 2,
        (DiskCall::Wrote { count, .. }, Left::All) => *count,
        _ => 0,
    }
}

/// What came of each call of a disk that never fails, and what it then holds.
pub(crate) fn use_sound_disk(alloc: Global, steps: &str) -> Result<String> {
    let mut disk = sound_disk(alloc)?;
    let mut lines = Lines::new(alloc);
    for step in steps.split(", ") {
        call(&mut disk, step, &mut lines)?;
    }
    lines.say("    holds ");
    lines.say(&String::from_utf8(disk.bytes)?);
    lines.say("\n");
    lines.done()
}

// An empty disk.
fn sound_disk(alloc: Global) -> Result<SoundMemoryDisk> {
    match SoundMemoryDisk::new(alloc, Vec::new(alloc)) {
        Ok(disk) => Ok(disk),
        Err(_) => bail!("no memory"),
    }
}
