//! The program `panel`: real files and streams for the call `panel` of panel_program, which promises the rest.
//!
//! It takes the words behind its name, and ends with the status of the outcome. The journal's disk is the file that
//! the third word names, for a move the fourth, whose fifth names the file in which the new journal is made. The
//! register of an import is the file of the fourth word; that of serving stands beside its journal, with `.register`
//! behind the name. A file is opened when `panel` first calls its disk or keeper, a port when serving starts the door.
//! No clause speaks of a real file or stream, so there is none here.
#![tactic(auto)]

use desk_doors::TcpDoor;
use panel_edges::{FileDisk, FileShelf, StdSink, StdSource};
use panel_program::panel;
use program_status::Status;
use register_sqlite::TableKeeper;
use std::alloc::{AllocError, Global};
use std::env;
use std::fs::File;
use std::io::ErrorKind;
use std::process::ExitCode;

fn main(rt: HostRuntime) -> ExitCode {
    // Where standard input, output or error is closed, one of these has its descriptor, so that no journal gets it.
    // What would be written there is refused then, since they are open for reading alone.
    let _first = File::open(&rt, "/dev/null");
    let _second = File::open(&rt, "/dev/null");
    let _third = File::open(&rt, "/dev/null");
    let Ok(words) = words_of(&rt) else {
        return ExitCode::from(Status::NoMemory.number());
    };
    let place = if is_command(words.as_slice(), "move") {
        3
    } else {
        2
    };
    let Ok(journal) = word_at(rt.alloc(), words.as_slice(), place) else {
        return ExitCode::from(Status::NoMemory.number());
    };
    let Ok(new_journal) = word_at(rt.alloc(), words.as_slice(), 4) else {
        return ExitCode::from(Status::NoMemory.number());
    };
    let mut disk = FileDisk::at(&rt, journal);
    let mut target = FileDisk::at(&rt, new_journal);
    let Ok(register) = register_of(rt.alloc(), words.as_slice()) else {
        return ExitCode::from(Status::NoMemory.number());
    };
    let mut door = TcpDoor::new(rt);
    let mut keeper = TableKeeper::at(rt, register);
    let mut shelf = FileShelf::new(&rt, rt.alloc());
    let mut input = StdSource::new(&rt);
    let mut out = StdSink::new(&rt);
    let outcome = panel(
        rt.alloc(),
        words.as_slice(),
        &mut shelf,
        &mut input,
        &mut out,
        &mut disk,
        &mut target,
        &mut door,
        &mut keeper,
    );
    ExitCode::from(outcome.status)
}

// The words behind the program's name. Where they are no text there are none.
fn words_of(rt: &HostRuntime) -> Result<Vec<String>, AllocError> {
    let mut words = Vec::new(rt.alloc());
    match env::args(rt) {
        Ok(args) => {
            for word in args.skip(1) {
                words.push(word)?;
            }
        }
        Err(error) => {
            if error.kind() == ErrorKind::OutOfMemory {
                return Err(AllocError);
            }
        }
    }
    Ok(words)
}

// Whether the words begin with that of a command.
fn is_command(words: &[String], command: &str) -> bool {
    match words.first() {
        Some(word) => word.as_str() == command,
        None => false,
    }
}

// The register's file: an import names it behind the file that it reads, and serving has it beside its journal.
fn register_of(alloc: Global, words: &[String]) -> Result<String, AllocError> {
    if is_command(words, "serve") {
        let mut name = word_at(alloc, words, 2)?;
        name.push_str(".register")?;
        return Ok(name);
    }
    word_at(alloc, words, 3)
}

// The word at a place, empty where there is none.
fn word_at(alloc: Global, words: &[String], place: usize) -> Result<String, AllocError> {
    match words.get(place) {
        Some(word) => word.clone(),
        None => Ok(String::new(alloc)),
    }
}
