ghost use Rattle.std.specs.Prelude.{◌≡◌, None};
ghost use Rattle.panel_edges.specs.Faults.{HasCause};

use crate::disks::Disk;
use crate::failed::Failed;
use std::fs::{File, OpenFile, OpenOptions};
use std::io;
use std::io::{ErrorKind, Read, Seek, SeekFrom, Write};
use std::rt::Files;

/// A file of the system, by its path. It is opened at the first call and locked against every other open of it; a lock
/// that another one holds counts as a fault. Where there is no such file it is made, and its folder synced. It tells
/// nothing of its bytes nor of what a crash may leave.
#[derive(Drop)]
pub struct FileDisk<R: Files<File = File> + Drop> {
    rt: R,
    path: String,
    file: Option<File>,
    faults: u64,
}

impl<R: Files<File = File> + Drop> FileDisk<R> {
    pub fn at(rt: R, path: String) -> FileDisk<R>
        ensures { result.faults ≡ 0 }
    {
        FileDisk {
            rt,
            path,
            file: None,
            faults: 0,
        }
    }

    fn file_len(&mut self) -> io::Result<u64>
        ensures { self.new.faults ≡ self.old.faults }
    {
        let file = opened(&self.rt, self.path.as_str(), &mut self.file)?;
        Ok(file.metadata()?.len())
    }

    fn file_read(&mut self, at: u64, into: &mut [u8]) -> io::Result<()>
        ensures { self.new.faults ≡ self.old.faults }
    {
        let file = opened(&self.rt, self.path.as_str(), &mut self.file)?;
        file.seek(SeekFrom::Start(at))?;
        file.read_exact(into)
    }

    fn file_write(&mut self, at: u64, bytes: &[u8]) -> io::Result<()>
        ensures { self.new.faults ≡ self.old.faults }
    {
        let file = opened(&self.rt, self.path.as_str(), &mut self.file)?;
        file.seek(SeekFrom::Start(at))?;
        file.write_all(bytes)
    }

    fn file_sync(&mut self) -> io::Result<()>
        ensures { self.new.faults ≡ self.old.faults }
    {
        opened(&self.rt, self.path.as_str(), &mut self.file)?.sync_all()
    }
}

// The open file, which the first call opens.
fn opened<'a, R: Files<File = File>>(
    rt: &R,
    path: &str,
    file: &'a mut Option<File>,
) -> io::Result<&'a mut File> {
    if file.is_none() {
        *file = Some(locked(rt, path)?);
    }
    match file {
        Some(file) => Ok(file),
        None => unreachable!(),
    }
}

// The file of that path, which nobody else has locked.
fn locked<R: Files<File = File>>(rt: &R, path: &str) -> io::Result<File> {
    let file = match OpenOptions::new().read(true).write(true).open(rt, path) {
        Ok(file) => file,
        Err(error) if error.kind() == ErrorKind::NotFound => made(rt, path)?,
        Err(error) => return Err(error),
    };
    file.try_lock()?;
    Ok(file)
}

// A new file of that path. Its folder is synced where the system lets it be opened, so that the file is found after a
// power cut.
fn made<R: Files<File = File>>(rt: &R, path: &str) -> io::Result<File> {
    let file = OpenOptions::new()
        .read(true)
        .write(true)
        .create(true)
        .open(rt, path)?;
    if let Ok(folder) = OpenOptions::new().read(true).open(rt, folder_of(path)) {
        let _ = folder.sync_all();
    }
    Ok(file)
}

// The folder in which a path lies.
fn folder_of(path: &str) -> &str {
    match path.rsplit_once('/') {
        Some(("", _)) => "/",
        Some((folder, _)) => folder,
        None => ".",
    }
}

// What a call of the system answered; an error is counted as a fault.
fn told<T: Drop>(faults: &mut u64, done: io::Result<T>) -> Result<T, Failed>
    ensures { HasCause faults.old faults.new result }
{
    match done {
        Ok(value) => Ok(value),
        Err(_) => {
            *faults = faults.saturating_add(1);
            Err(Failed)
        }
    }
}

impl<R: Files<File = File> + Drop> Disk for FileDisk<R> {
    ghost seen = { λ d. None };

    ghost honest = { λ d. ⊥ };

    ghost images = { λ d c. ⊥ };

    ghost moment = { λ d. 0 };

    ghost left_since = { λ d t c. ⊥ };

    ghost faults = { λ d. d.faults };

    ghost reads_as_image = { λ d honest. absurd honest };

    ghost counts_now = { λ d t c honest le left. absurd honest };

    ghost only_now = { λ d c honest left. absurd honest };

    fn len(&mut self) -> Result<u64, Failed> {
        let len = self.file_len();
        told(&mut self.faults, len)
    }

    fn read_at(&mut self, at: u64, into: &mut [u8]) -> Result<(), Failed> {
        let done = self.file_read(at, into);
        told(&mut self.faults, done)
    }

    fn write_at(&mut self, at: u64, bytes: &[u8]) -> Result<(), Failed> {
        let done = self.file_write(at, bytes);
        told(&mut self.faults, done)
    }

    fn sync(&mut self) -> Result<(), Failed> {
        let done = self.file_sync();
        told(&mut self.faults, done)
    }
}
