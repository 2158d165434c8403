ghost use Rattle.std.specs.Prelude.{◌≡◌, ◌≤◌, length, vec_capacity, Some};
ghost use Rattle.panel_edges.specs.Limits.{most_disk_bytes};

use crate::disks::Disk;
use crate::failed::Failed;
use crate::limits::MOST_DISK_BYTES;
use crate::no_memory::NoMemory;
use crate::overwriting::overwrite_reserved;
use std::alloc::Global;

/// A disk in memory whose calls never fail. It keeps no log, so it isn't honest: it tells nothing of crashes.
#[derive(Drop)]
pub struct SoundMemoryDisk {
    /// What a read gives.
    pub bytes: Vec<u8>,
    ghost small: { length bytes.items ≤ most_disk_bytes },
    ghost room: { most_disk_bytes ≤ vec_capacity bytes },
}

impl SoundMemoryDisk {
    ghost use Rattle.std.specs.Prelude.{IfOk};

    /// Reserves `MOST_DISK_BYTES` bytes.
    pub fn new(alloc: Global, bytes: Vec<u8>) -> Result<SoundMemoryDisk, NoMemory>
        requires { length bytes.items ≤ most_disk_bytes }
        ensures { IfOk result (λ d. d.bytes.items ≡ bytes.items) }
    {
        let Ok(mut copy) = Vec::with_capacity(alloc, MOST_DISK_BYTES) else {
            return Err(NoMemory);
        };
        match copy.extend_from_slice(&bytes) {
            Ok(()) => Ok(SoundMemoryDisk { bytes: copy }),
            Err(_) => Err(NoMemory),
        }
    }
}

impl Disk for SoundMemoryDisk {
    ghost seen = { λ d. Some d.bytes.items };

    ghost honest = { λ d. ⊥ };

    ghost images = { λ d c. ⊥ };

    ghost moment = { λ d. 0 };

    ghost left_since = { λ d t c. ⊥ };

    ghost faults = { λ d. 0 };

    ghost reads_as_image = { λ d honest. absurd honest };

    ghost counts_now = { λ d t c honest le left. absurd honest };

    ghost only_now = { λ d c honest left. absurd honest };

    ghost use Rattle.std.specs.Prelude.{◌+◌, Ok, take, drop};
    ghost use Rattle.panel_edges.specs.Disks.{Holds};

    fn len(&mut self) -> Result<u64, Failed>
        ensures len { result ≡ Ok (length self.old.bytes.items) }
        ensures seen { self.new.bytes.items ≡ self.old.bytes.items }
    {
        Ok(self.bytes.len() as u64)
    }

    fn read_at(&mut self, at: u64, into: &mut [u8]) -> Result<(), Failed>
        requires { at + length into.old ≤ length self.old.bytes.items }
        ensures sound { result ≡ Ok tt }
        ensures bytes { into.new ≡ take (length into.old) (drop at self.old.bytes.items) }
        ensures seen { self.new.bytes.items ≡ self.old.bytes.items }
    {
        let at = at as usize;
        into.copy_from_slice(&self.bytes[at..at + into.len()]);
        Ok(())
    }

    fn write_at(&mut self, at: u64, bytes: &[u8]) -> Result<(), Failed>
        requires { at + length bytes.now ≤ most_disk_bytes }
        ensures sound { result ≡ Ok tt }
        ensures bytes { Holds at bytes.now self.old.bytes.items self.new.bytes.items }
    {
        overwrite_reserved(&mut self.bytes, at as usize, bytes);
        Ok(())
    }

    fn sync(&mut self) -> Result<(), Failed>
        ensures sound { result ≡ Ok tt }
        ensures seen { self.new.bytes.items ≡ self.old.bytes.items }
    {
        Ok(())
    }
}
