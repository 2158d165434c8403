use crate::memory_database::MemoryDatabase;
use crate::trouble::Trouble;
use sqlite::{Alter, Connection, File, FileStore, MemStore};
use std::alloc::Global;

/// A store of databases: what a keeper needs to open one there, and what it has once it is open.
pub trait TableStore: Alter + Drop {
    type Place: Drop;

    type Database: Drop;
}

impl TableStore for MemStore {
    type Place = Global;

    type Database = MemoryDatabase;
}

impl TableStore for FileStore<File> {
    type Place = DatabaseFile;

    type Database = Connection<FileStore<File>>;
}

/// A file that has a database or shall get one.
#[derive(Drop)]
pub struct DatabaseFile {
    pub(crate) rt: HostRuntime,
    pub(crate) path: String,
}

/// A keeper over a database, which is opened at the first call.
#[derive(Drop)]
pub struct TableKeeper<S: TableStore> {
    pub(crate) place: S::Place,
    pub(crate) database: Option<S::Database>,
    pub(crate) faults: u64,
    pub(crate) trouble: Option<Trouble>,
}

impl<S: TableStore> TableKeeper<S> {
    ghost use Rattle.std.specs.Prelude.{◌≡◌};

    /// What kept the last call from its answer, and None where it was answered or there was no call yet.
    pub fn trouble(&self) -> Option<Trouble>
        ensures { result ≡ self.now.trouble }
    {
        self.trouble
    }
}
