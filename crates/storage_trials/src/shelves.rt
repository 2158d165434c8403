//! Shelves in memory and over a folder.
//!
//! `make NAME COUNT` makes a file of so many bytes: 0 to 250, again and again, so that no two that stand 251 apart or
//! nearer repeat a pattern of seven. `hold COUNT` has as many in hand, and `fetch NAME` puts those of a file there.

use anyhow::{Result, bail};
use panel_edges::{FetchFault, FileShelf, Found, MemoryShelf, Shelf, ShelfFile, SoundMemoryShelf};
use std::alloc::{AllocError, Global};
use std::fs;
use trial_cases::{Lines, Words};

/// What each fetch answers, and what then is in hand. The shelf is `memory`, `sound`, or a folder.
pub(crate) fn fetch_from(rt: &HostRuntime, shelf: &str, steps: &str) -> Result<String> {
    let alloc = rt.alloc();
    let files = made_files(alloc, steps)?;
    match shelf {
        "memory" => match MemoryShelf::new(alloc, files, Vec::new(alloc)) {
            Ok(mut shelf) => fetch_each(alloc, &mut shelf, "", steps),
            Err(_) => bail!("no memory"),
        },
        "sound" => match SoundMemoryShelf::new(alloc, files) {
            Ok(mut shelf) => fetch_each(alloc, &mut shelf, "", steps),
            Err(_) => bail!("no memory"),
        },
        _ => fetch_from_folder(rt, shelf, &files, steps),
    }
}

// The files that steps make.
fn made_files(alloc: Global, steps: &str) -> Result<Vec<ShelfFile>> {
    let mut files = Vec::new(alloc);
    for step in steps.split(", ") {
        let mut words = Words::of(step);
        if words.next() == "make" {
            files.push(made_file(alloc, words)?)?;
        }
    }
    Ok(files)
}

fn made_file(alloc: Global, mut words: Words) -> Result<ShelfFile> {
    let name = String::from_str(alloc, words.next())?;
    let bytes = some_bytes(alloc, words.rest().parse::<u32>()? as usize)?;
    Ok(ShelfFile { name, bytes })
}

fn some_bytes(alloc: Global, count: usize) -> Result<Vec<u8>, AllocError> {
    let mut bytes = Vec::new(alloc);
    let mut byte = 0u8;
    for _place in 0..count {
        bytes.push(byte)?;
        byte = if byte < 250 { byte + 1 } else { 0 };
    }
    Ok(bytes)
}

// The folder is made, and taken away again.
fn fetch_from_folder(
    rt: &HostRuntime,
    folder: &str,
    files: &[ShelfFile],
    steps: &str,
) -> Result<String> {
    let alloc = rt.alloc();
    fs::create_dir_all(rt, folder)?;
    for file in files {
        write_file(rt, folder, file)?;
    }
    let prefix = format!(in alloc; "{folder}/")?;
    let told = fetch_each(alloc, &mut FileShelf::new(rt, alloc), &prefix, steps);
    fs::remove_dir_all(rt, folder)?;
    told
}

fn write_file(rt: &HostRuntime, folder: &str, file: &ShelfFile) -> Result<()> {
    let path = format!(in rt.alloc(); "{folder}/{}", file.name)?;
    fs::write(rt, path.as_str(), file.bytes.as_slice())?;
    Ok(())
}

// A name stands behind the prefix.
fn fetch_each<S: Shelf>(alloc: Global, shelf: &mut S, prefix: &str, steps: &str) -> Result<String> {
    let mut bytes = Vec::new(alloc);
    let mut lines = Lines::new(alloc);
    for step in steps.split(", ") {
        match step.split_once(' ') {
            Some(("make", _)) => {}
            Some(("hold", count)) => bytes = some_bytes(alloc, count.parse::<u32>()? as usize)?,
            Some(("fetch", name)) => {
                let path = format!(in alloc; "{prefix}{name}")?;
                let answer = shelf.fetch(&path, &mut bytes);
                let is_as_made = bytes == some_bytes(alloc, bytes.len())?;
                say_fetched(&mut lines, name, answer, bytes.len(), is_as_made);
            }
            _ => bail!("no step with a shelf: {step}"),
        }
    }
    lines.done()
}

fn say_fetched(
    lines: &mut Lines,
    name: &str,
    answer: Result<Found, FetchFault>,
    count: usize,
    is_as_made: bool,
) {
    lines.say("    ");
    lines.say(name);
    lines.say(": ");
    lines.say(word_of(answer));
    lines.count(", in hand ", count as u64);
    lines.say(if is_as_made {
        "\n"
    } else {
        " of other bytes\n"
    });
}

fn word_of(answer: Result<Found, FetchFault>) -> &'static str {
    match answer {
        Ok(Found::Here) => "here",
        Ok(Found::Absent) => "absent",
        Err(FetchFault::Failed) => "failed",
        Err(FetchFault::TooLong) => "too long",
        Err(FetchFault::NoMemory) => "no memory",
    }
}
