//! Disks over a real file.

use crate::disk_steps::{DiskStep, call, say_step};
use anyhow::{Result, bail};
use panel_edges::{Disk, FileDisk};
use std::alloc::Global;
use std::fs;
use trial_cases::Lines;

/// What came of each call of a disk over a new file, or of another one over the same file. The file is taken away.
pub(crate) fn use_real_disk(rt: &HostRuntime, path: &str, steps: &str) -> Result<String> {
    let mut lines = Lines::new(rt.alloc());
    call_each(rt, path, steps, &mut lines)?;
    fs::remove_file(rt, path)?;
    lines.done()
}

fn call_each(rt: &HostRuntime, path: &str, steps: &str, lines: &mut Lines) -> Result<()> {
    let mut own = Some(disk_at(rt, path)?);
    let mut other = disk_at(rt, path)?;
    for step in steps.split(", ") {
        match DiskStep::read(step)? {
            DiskStep::Drop => own = None,
            DiskStep::Other { at, count } => {
                read(rt.alloc(), &mut other, at, count, step, lines)?
            }
            known => call_own(rt, &mut own, known, step, lines)?,
        }
    }
    Ok(())
}

fn disk_at<'a>(rt: &'a HostRuntime, path: &str) -> Result<FileDisk<&'a HostRuntime>> {
    Ok(FileDisk::at(rt, String::from_str(rt.alloc(), path)?))
}

// A call of the first disk.
fn call_own(
    rt: &HostRuntime,
    own: &mut Option<FileDisk<&HostRuntime>>,
    known: DiskStep,
    step: &str,
    lines: &mut Lines,
) -> Result<()> {
    match (own, known) {
        (None, _) => bail!("the disk is gone: {step}"),
        (Some(disk), DiskStep::Read { at, count }) => {
            read(rt.alloc(), disk, at, count, step, lines)
        }
        (Some(disk), _) => call(disk, step, lines),
    }
}

fn read(
    alloc: Global,
    disk: &mut FileDisk<&HostRuntime>,
    at: u64,
    count: u16,
    step: &str,
    lines: &mut Lines,
) -> Result<()> {
    let mut bytes = vec![in alloc; 0u8; count as usize]?;
    say_step(lines, step);
    if disk.read_at(at, bytes.as_mut_slice()).is_err() {
        lines.say("failed\n");
        return Ok(());
    }
    lines.say(&String::from_utf8(bytes)?);
    lines.say("\n");
    Ok(())
}
