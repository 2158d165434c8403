ghost use Rattle.std.specs.Prelude.{◌≡◌, ◌<◌, ◌≤◌, [], ◌++◌, ◌↔◌, Some, None, length, take, drop, min, IfOk};
ghost use Rattle.panel_edges.specs.Contents.{HasTaken};

use crate::copying::copy_from;
use crate::failed::Failed;
use crate::no_memory::NoMemory;
use crate::streams::{Source, Stream};
use std::alloc::Global;

/// Bytes in memory whose reads never fail.
#[derive(Drop)]
pub struct SoundMemorySource {
    pub bytes: Vec<u8>,
    /// How many of the bytes were read.
    pub at: usize,
    ghost within: { at ≤ length bytes.items },
}

impl SoundMemorySource {
    /// Takes the allocator as every form in memory does. This one takes no memory.
    pub fn new(_alloc: Global, bytes: Vec<u8>) -> Result<SoundMemorySource, NoMemory>
        ensures { IfOk result (λ s. drop s.at s.bytes.items ≡ bytes.items) }
    {
        Ok(SoundMemorySource { bytes, at: 0 })
    }
}

impl Stream for SoundMemorySource {
    ghost left = { λ s. Some (drop s.at s.bytes.items) };

    ghost written = { λ s. None };

    ghost read_faults = { λ s. 0 };

    ghost write_faults = { λ s. 0 };
}

impl Source for SoundMemorySource {
    fn read(&mut self, into: &mut [u8]) -> Result<usize, Failed>
        requires { 0 < length into.old }
        ensures taken { IfOk result (HasTaken (drop self.old.at self.old.bytes.items)
            (drop self.new.at self.new.bytes.items) into.new) }
        // It never fails, and gives as many bytes as there are and fit.
        ensures count { result
            ≡ Ok (min (length into.old) (length (drop self.old.at self.old.bytes.items))) }
    {
        let count = copy_from(&self.bytes, self.at, into);
        self.at += count;
        Ok(count)
    }
}
