ghost use Rattle.std.specs.Prelude.{◌≡◌, ◌≤◌, None, length, IfOk, IfSome};
ghost use Rattle.panel_edges.specs.Limits.{most_file_bytes};

use crate::fetching::{FetchFault, Found};
use crate::limits::MOST_FILE_BYTES;
use crate::shelves::Shelf;
use std::alloc::Global;
use std::fs::OpenOptions;
use std::io::{ErrorKind, Read};
use std::rt::Files;

/// The files of the system, named by their paths. It tells nothing of them, and touches the system at a fetch alone.
#[derive(Drop)]
pub struct FileShelf<R: Files + Drop> {
    rt: R,
    alloc: Global,
    faults: u64,
}

impl<R: Files + Drop> FileShelf<R> {
    /// Keeps the allocator, from which each fetch takes the bytes that it hands out.
    pub fn new(rt: R, alloc: Global) -> FileShelf<R>
        ensures { result.faults ≡ 0 }
    {
        FileShelf {
            rt,
            alloc,
            faults: 0,
        }
    }

    // The bytes of a file, or None where there is no file of that path. At most one byte more than a whole
    // file is read.
    fn read_file(&self, path: &str) -> Result<Option<Vec<u8>>, FetchFault>
        ensures { IfOk result
            (λ file. IfSome file (λ bytes. length bytes.items ≤ most_file_bytes)) }
    {
        let mut file = match OpenOptions::new().read(true).open(&self.rt, path) {
            Ok(file) => file,
            Err(error) => {
                return match error.kind() {
                    ErrorKind::NotFound | ErrorKind::NotADirectory => Ok(None),
                    _ => Err(FetchFault::Failed),
                };
            }
        };
        let mut bytes = Vec::new(self.alloc);
        let mut buffer = [0; 4096];
        while bytes.len() <= MOST_FILE_BYTES {
            let most = buffer.len().min(MOST_FILE_BYTES + 1 - bytes.len());
            let Ok(count) = file.read(&mut buffer[..most]) else {
                return Err(FetchFault::Failed);
            };
            if count == 0 {
                return Ok(Some(bytes));
            }
            if bytes.extend_from_slice(&buffer[..count]).is_err() {
                return Err(FetchFault::NoMemory);
            }
        }
        Err(FetchFault::TooLong)
    }
}

impl<R: Files + Drop> Shelf for FileShelf<R> {
    ghost files = { λ s. None };

    ghost faults = { λ s. s.faults };

    fn fetch(&mut self, name: &str, into: &mut Vec<u8>) -> Result<Found, FetchFault> {
        match self.read_file(name) {
            Ok(Some(bytes)) => {
                *into = bytes;
                Ok(Found::Here)
            }
            Ok(None) => Ok(Found::Absent),
            Err(FetchFault::Failed) => {
                self.faults = self.faults.saturating_add(1);
                Err(FetchFault::Failed)
            }
            Err(fault) => Err(fault),
        }
    }
}
