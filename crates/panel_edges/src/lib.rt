//! The outside of the panel as traits: what it reads, writes, fetches and keeps.
//!
//! Nothing above this crate touches a file, a terminal or a socket. It calls a [`Source`] (bytes that are
//! read from the front), a [`Sink`] (bytes that are written at the end), a [`Shelf`] (whole files by name) or
//! a [`Disk`] (one small file that is written in place), and each call may fail. What the crate promises is
//! the contracts of these four:
//!
//! - *Content where it is told.* An object in memory tells the bytes that are left, the bytes that were written or the
//!   files that it holds, and each call says what it does to them. A real file or terminal tells nothing.
//! - *A fault has a cause.* Each object counts its faults. The count never falls, and a call answers [`Failed`] only
//!   where it rose in that call. At its last value it counts as having risen.
//! - *Both ends of a connection have one meaning*, [`Stream`]: a read leaves what was written as it is, and a
//!   write what is left to read.
//! - *What a crash may leave.* A disk tells its images: the files that a crash may leave, at this moment and
//!   at each moment since another. [`write_synced`] pairs a write with its sync, and says what stands in each
//!   image then.
//!
//! Begin with [`MemorySource`] and [`MemorySink`]: they fail at the calls whose numbers they are given, and
//! at no other but a write that passes the sink's room. `SoundMemorySource` and `SoundMemorySink` never fail.
//! [`MemoryDisk`] keeps a log of its calls and makes the file that a cut leaves after any of them.
//! [`StdSource`], [`StdSink`], [`FileShelf`] and [`FileDisk`] stand for the real things; what those hold is
//! trusted and not proved.
//!
//! No call buffers: what a [`Sink`] took has left the process. A read or a write costs one call of the
//! system, or two of a real disk, a fetch one for each 4,096 bytes. Only a fetch takes memory, and what a
//! disk in memory needs is reserved when it is made.
#![tactic(auto)]

mod call_counts;
mod copying;
mod cutting;
mod disk_call;
mod disks;
mod failed;
mod fetching;
mod file_disk;
mod file_shelf;
mod label;
mod limits;
mod memory_disk;
mod memory_shelf;
mod memory_sink;
mod memory_source;
mod no_memory;
mod overwriting;
mod shelf_file;
mod shelves;
mod sound_memory_disk;
mod sound_memory_shelf;
mod sound_memory_sink;
mod sound_memory_source;
mod std_sink;
mod std_source;
mod streams;
mod syncing;
mod writing;

pub use call_counts::count_call;
pub use disk_call::DiskCall;
pub use disks::Disk;
pub use failed::Failed;
pub use fetching::{FetchFault, Found};
pub use file_disk::FileDisk;
pub use file_shelf::FileShelf;
pub use label::Label;
pub use limits::{
    MOST_BODY_BYTES, MOST_DISK_BYTES, MOST_FILE_BYTES, MOST_HEAD_BYTES, MOST_RECORD_BYTES,
};
pub use memory_disk::MemoryDisk;
pub use memory_shelf::MemoryShelf;
pub use memory_sink::MemorySink;
pub use memory_source::MemorySource;
pub use no_memory::NoMemory;
pub use shelf_file::ShelfFile;
pub use shelves::Shelf;
pub use sound_memory_disk::SoundMemoryDisk;
pub use sound_memory_shelf::SoundMemoryShelf;
pub use sound_memory_sink::SoundMemorySink;
pub use sound_memory_source::SoundMemorySource;
pub use std_sink::StdSink;
pub use std_source::StdSource;
pub use streams::{Sink, Source, Stream};
pub use syncing::write_synced;
pub use writing::write_all;
