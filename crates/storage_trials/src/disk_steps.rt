//! Calls of a disk as the words of a case spell them, and what is told of each.

use anyhow::{Result, bail};
use panel_edges::{Disk, Failed, MOST_DISK_BYTES};
use trial_cases::{Lines, Words};

/// A call of a disk, or what else is done with one.
#[derive(Clone, Copy)]
pub(crate) enum DiskStep<'a> {
    /// `len`.
    Len,
    /// `write 0 aaaa`: these bytes from a place on.
    Write { at: u16, text: &'a str },
    /// `sync`.
    Sync,
    /// `read 0 4`: so many bytes from a place on.
    Read { at: u64, count: u16 },
    /// `other 0 4`: the same over another disk of the same file.
    Other { at: u64, count: u16 },
    /// `drop`: the disk is let go, and its file with it.
    Drop,
}

impl<'a> DiskStep<'a> {
    pub(crate) fn read(step: &'a str) -> Result<DiskStep<'a>> {
        let mut words = Words::of(step);
        match words.next() {
            "len" => Ok(DiskStep::Len),
            "write" => Ok(DiskStep::Write {
                at: words.place()?,
                text: words.rest(),
            }),
            "sync" => Ok(DiskStep::Sync),
            "read" => Ok(DiskStep::Read {
                at: words.number()?,
                count: words.place()?,
            }),
            "other" => Ok(DiskStep::Other {
                at: words.number()?,
                count: words.place()?,
            }),
            "drop" => Ok(DiskStep::Drop),
            _ => bail!("no call of a disk: {step}"),
        }
    }
}

/// Does a call that any disk has, and tells what came of it.
pub(crate) fn call<D: Disk>(disk: &mut D, step: &str, lines: &mut Lines) -> Result<()> {
    say_step(lines, step);
    match DiskStep::read(step)? {
        DiskStep::Len => say_len(lines, disk.len()),
        DiskStep::Write { at, text } => {
            let written = write(disk, at, text)?;
            say_done(lines, written);
        }
        DiskStep::Sync => say_done(lines, disk.sync()),
        _ => bail!("no call of each disk: {step}"),
    }
    Ok(())
}

fn write<D: Disk>(disk: &mut D, at: u16, text: &str) -> Result<Result<(), Failed>> {
    let bytes = text.as_bytes();
    if bytes.len() > MOST_DISK_BYTES - at as usize {
        bail!("a disk has no room for so much");
    }
    Ok(disk.write_at(at as u64, bytes))
}

pub(crate) fn say_step(lines: &mut Lines, step: &str) {
    lines.say("    ");
    lines.say(step);
    lines.say(": ");
}

fn say_len(lines: &mut Lines, len: Result<u64, Failed>) {
    match len {
        Ok(len) => lines.number(len),
        Err(Failed) => lines.say("failed"),
    }
    lines.say("\n");
}

fn say_done(lines: &mut Lines, done: Result<(), Failed>) {
    lines.say(if done.is_ok() { "done\n" } else { "failed\n" });
}
