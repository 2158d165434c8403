ghost use Rattle.std.specs.Prelude.{◌≡◌, ◌+◌, ◌≤◌, length, vec_capacity, Some, refl};
ghost use Rattle.panel_edges.specs.DiskLogs.{bytes_in, calls_of, content, left_after, left_by};
ghost use Rattle.panel_edges.specs.DiskLaws.{image_now, none_since, now_counts};
ghost use Rattle.panel_edges.specs.Limits.{most_disk_bytes};

use crate::call_counts::count_call;
use crate::cutting::cut_file;
use crate::disk_call::DiskCall;
use crate::disks::Disk;
use crate::failed::Failed;
use crate::limits::MOST_DISK_BYTES;
use crate::no_memory::NoMemory;
use crate::overwriting::{append_reserved, overwrite_reserved};
use std::alloc::Global;

/// A disk in memory that keeps a log of its writes and syncs, and tells by it what a crash may leave at every
/// moment since it was made.
///
/// The calls whose numbers, from 1, are listed fail, and so does each write or sync that passes the log, and no other.
/// A listed write that has room in the log leaves the first half of its bytes; whatever else fails changes nothing.
#[derive(Drop)]
pub struct MemoryDisk {
    /// What the file held when the disk was made.
    pub start: Vec<u8>,
    /// What a read gives.
    pub bytes: Vec<u8>,
    /// The writes and the syncs that succeeded, the oldest first.
    pub log: Vec<DiskCall>,
    /// The bytes of the writes in the log, one write after the other.
    pub log_bytes: Vec<u8>,
    /// How many calls the log has room for.
    pub most_calls: usize,
    /// How many written bytes the log has room for.
    pub most_written: usize,
    pub fails: Vec<u64>,
    /// How many calls there were, which stands at its type's last value.
    pub calls: u64,
    pub faults: u64,
    ghost whole: { bytes.items ≡ content start.items (calls_of log.items log_bytes.items) },
    ghost tight: { length log_bytes.items ≡ bytes_in log.items },
    ghost small: { length bytes.items ≤ most_disk_bytes },
    ghost few_calls: { length log.items ≤ most_calls },
    ghost few_written: { length log_bytes.items ≤ most_written },
    ghost room: { most_disk_bytes ≤ vec_capacity bytes },
    ghost log_room: { most_calls ≤ vec_capacity log },
    ghost written_room: { most_written ≤ vec_capacity log_bytes },
}

impl Disk for MemoryDisk {
    ghost seen = { λ d. Some d.bytes.items };

    ghost honest = { λ d. Unit {0} };

    ghost images = { λ d c. left_by d.start.items (calls_of d.log.items d.log_bytes.items) c };

    ghost moment = { λ d. length (calls_of d.log.items d.log_bytes.items) };

    ghost left_since = { λ d t c. left_after d.start.items (calls_of d.log.items d.log_bytes.items) t c };

    ghost faults = { λ d. d.faults };

    ghost reads_as_image = { λ d honest. (
      d.bytes.items,
      refl,
      image_now d.start.items d.bytes.items (calls_of d.log.items d.log_bytes.items) d.whole,
    ) };

    ghost counts_now = { λ d t c honest le left.
        now_counts d.start.items (calls_of d.log.items d.log_bytes.items) t c le left };

    ghost only_now = { λ d c honest left. none_since d.start.items (calls_of d.log.items d.log_bytes.items) c left };

    ghost use Rattle.std.specs.Prelude.{◌⊎◌, ◌/◌, [], ◌∷◌, ◌++◌, ◌↔◌, take, drop, IfOk, IsErr, OnErr, OnOk};
    ghost use Rattle.panel_edges.specs.Crashes.{Elapses, Follows, Only, Stays};
    ghost use Rattle.panel_edges.specs.Disks.{Holds, Torn};
    ghost use Rattle.panel_edges.specs.DiskLogs.{Sync, Write};
    ghost use Rattle.panel_edges.specs.Faults.{HasCause, IsListed, counted};
    ghost use Rattle.panel_edges.specs.MemoryDisks.{HasKept, HasLogged, HasRead, IsFull, IsPassed, images_of, left_of};
    ghost use Rattle.panel_edges.specs.MemoryDisks.{moment_of};

    fn len(&mut self) -> Result<u64, Failed>
        ensures ok { IfOk result (λ n. n ≡ length self.old.bytes.items) }
        ensures read { HasRead self.old self.new result }
    {
        self.count_read()?;
        Ok(self.bytes.len() as u64)
    }

    fn read_at(&mut self, at: u64, into: &mut [u8]) -> Result<(), Failed>
        requires { at + length into.old ≤ length self.old.bytes.items }
        ensures ok { OnOk result
            (into.new ≡ take (length into.old) (drop at self.old.bytes.items)) }
        ensures read { HasRead self.old self.new result }
    {
        self.count_read()?;
        let at = at as usize;
        into.copy_from_slice(&self.bytes[at..at + into.len()]);
        Ok(())
    }

    fn write_at(&mut self, at: u64, bytes: &[u8]) -> Result<(), Failed>
        requires { at + length bytes.now ≤ most_disk_bytes }
        ensures ok { OnOk result (Holds at bytes.now self.old.bytes.items self.new.bytes.items) }
        ensures err { OnErr result
            (Torn at (length bytes.now) self.old.bytes.items self.new.bytes.items) }
        ensures logged { OnOk result (HasLogged (Write at bytes.now (length bytes.now)) self.old
            self.new) }
        ensures torn { OnErr result (HasLogged (Write at bytes.now (length bytes.now / 2)) self.old
            self.new ⊎ HasKept self.old self.new) }
        ensures crash { Follows (Torn at (length bytes.now)) (images_of self.old)
            (images_of self.new) }
        ensures time { Elapses (moment_of self.old) (moment_of self.new) (left_of self.old)
            (left_of self.new) (images_of self.new) }
        ensures cause { HasCause self.old.faults self.new.faults result }
        ensures fails { IsErr result ↔ (IsListed self.old.fails.items self.old.calls
            ⊎ IsPassed self.old (length bytes.now)) }
        ensures calls { (self.new.calls ≡ counted self.old.calls)
            × (self.new.fails.items ≡ self.old.fails.items) }
    {
        let is_listed = count_call(&mut self.calls, &self.fails);
        if self.is_passed(bytes.len()) {
            self.faults = self.faults.saturating_add(1);
            return Err(Failed);
        }
        if is_listed {
            self.write(at as usize, bytes, bytes.len() / 2);
            self.faults = self.faults.saturating_add(1);
            return Err(Failed);
        }
        self.write(at as usize, bytes, bytes.len());
        Ok(())
    }

    fn sync(&mut self) -> Result<(), Failed>
        ensures seen { self.new.bytes.items ≡ self.old.bytes.items }
        ensures logged { OnOk result (HasLogged Sync self.old self.new) }
        ensures kept { OnErr result (HasKept self.old self.new) }
        ensures durable { OnOk result (Only self.new.bytes.items (images_of self.new)) }
        ensures crash { Stays (images_of self.old) (images_of self.new) }
        ensures time { Elapses (moment_of self.old) (moment_of self.new) (left_of self.old)
            (left_of self.new) (images_of self.new) }
        ensures cause { HasCause self.old.faults self.new.faults result }
        ensures fails { IsErr result ↔ (IsListed self.old.fails.items self.old.calls
            ⊎ IsFull self.old) }
        ensures calls { (self.new.calls ≡ counted self.old.calls)
            × (self.new.fails.items ≡ self.old.fails.items) }
    {
        let is_listed = count_call(&mut self.calls, &self.fails);
        if is_listed || self.log.len() >= self.most_calls {
            self.faults = self.faults.saturating_add(1);
            return Err(Failed);
        }
        self.note_sync();
        Ok(())
    }
}

impl MemoryDisk {
    ghost use Rattle.std.specs.Prelude.{◌⊎◌, ℕ, ◌<◌, [], ◌↔◌, take, IfOk, IsTrue};
    ghost use Rattle.panel_edges.specs.DiskLogs.{Sync, Write, cut_by};
    ghost use Rattle.panel_edges.specs.MemoryDisks.{HasLogged, HasRead, IsPassed, left_of, log_of, moment_of};
    ghost use Rattle.panel_edges.specs.Overwritten.{overwritten};

    /// Reserves `MOST_DISK_BYTES` bytes, and a log of so many calls and so many written bytes.
    pub fn new(
        alloc: Global,
        bytes: Vec<u8>,
        calls: usize,
        written: usize,
        fails: Vec<u64>,
    ) -> Result<MemoryDisk, NoMemory>
        requires { length bytes.items ≤ most_disk_bytes }
        ensures bytes { IfOk result (λ d. (d.bytes.items ≡ bytes.items)
            × (d.start.items ≡ bytes.items)) }
        ensures log { IfOk result (λ d. (d.log.items ≡ []) × (d.log_bytes.items ≡ [])
            × (d.most_calls ≡ calls) × (d.most_written ≡ written)) }
        ensures fails { IfOk result (λ d. d.fails.items ≡ fails.items) }
        ensures counts { IfOk result (λ d. (d.calls ≡ 0) × (d.faults ≡ 0)) }
    {
        let Ok(mut copy) = Vec::with_capacity(alloc, MOST_DISK_BYTES) else {
            return Err(NoMemory);
        };
        let Ok(log) = Vec::with_capacity(alloc, calls) else {
            return Err(NoMemory);
        };
        let Ok(log_bytes) = Vec::with_capacity(alloc, written) else {
            return Err(NoMemory);
        };
        if copy.extend_from_slice(&bytes).is_err() {
            return Err(NoMemory);
        }
        Ok(MemoryDisk {
            start: bytes,
            bytes: copy,
            log,
            log_bytes,
            most_calls: calls,
            most_written: written,
            fails,
            calls: 0,
            faults: 0,
        })
    }

    /// The file that a cut leaves after the first so many calls of the log. Each write since the last sync
    /// before left as many of its first bytes as `kept` says at its place in the log, and none where it says
    /// nothing.
    pub fn cut(&self, alloc: Global, calls: usize, kept: &[usize]) -> Result<Vec<u8>, NoMemory>
        ensures file { IfOk result
            (λ file. file.items ≡ cut_by self.now.start.items (take calls (log_of self.now))
            kept.now) }
        // The file is one of the images since each moment up to the last of these calls.
        ensures image { IfOk result (λ file. (t : ℕ) → t ≤ calls → t ≤ moment_of self.now
            → left_of self.now t file.items) }
    {
        let log = &self.log[..calls.min(self.log.len())];
        match cut_file(alloc, &self.start, log, &self.log_bytes, kept) {
            Ok(file) => Ok(file),
            Err(_) => Err(NoMemory),
        }
    }

    // Counts a read, which fails where its number is listed.
    fn count_read(&mut self) -> Result<(), Failed>
        ensures { HasRead self.old self.new result }
    {
        if count_call(&mut self.calls, &self.fails) {
            self.faults = self.faults.saturating_add(1);
            return Err(Failed);
        }
        Ok(())
    }

    // Whether a write of so many bytes passes the log.
    fn is_passed(&self, count: usize) -> bool
        ensures { IsTrue result ↔ IsPassed self.now count }
    {
        self.log.len() >= self.most_calls || self.most_written - self.log_bytes.len() < count
    }

    // Logs a write, and writes so many of its bytes.
    fn write(&mut self, at: usize, bytes: &[u8], kept: usize)
        requires range { at + length bytes.now ≤ most_disk_bytes }
        requires front { kept ≤ length bytes.now }
        requires calls { length self.old.log.items < self.old.most_calls }
        requires written { length self.old.log_bytes.items + length bytes.now ≤
            self.old.most_written }
        ensures logged { HasLogged (Write at bytes.now kept) self.old self.new }
        ensures bytes { self.new.bytes.items ≡ overwritten at (take kept bytes.now)
            self.old.bytes.items }
        ensures counts { (self.new.calls ≡ self.old.calls) × (self.new.faults ≡ self.old.faults)
            × (self.new.fails.items ≡ self.old.fails.items) }
    {
        let count = bytes.len();
        self.log.push_reserved(DiskCall::Wrote { at, count, kept });
        append_reserved(&mut self.log_bytes, bytes);
        overwrite_reserved(&mut self.bytes, at, &bytes[..kept]);
    }

    // Logs a sync.
    fn note_sync(&mut self)
        requires { length self.old.log.items < self.old.most_calls }
        ensures logged { HasLogged Sync self.old self.new }
        ensures bytes { self.new.bytes.items ≡ self.old.bytes.items }
        ensures counts { (self.new.calls ≡ self.old.calls) × (self.new.faults ≡ self.old.faults)
            × (self.new.fails.items ≡ self.old.fails.items) }
    {
        self.log.push_reserved(DiskCall::Synced);
    }
}
