ghost use Rattle.std.specs.Prelude.{◌≡◌, ◌<◌, ◌≤◌, [], ◌++◌, ◌↔◌, Some, None, length, take, drop, min, IfOk, IsErr};
ghost use Rattle.std.specs.Prelude.{OnErr};
ghost use Rattle.panel_edges.specs.Faults.{HasCause, IsListed, counted};
ghost use Rattle.panel_edges.specs.Contents.{HasTaken};

use crate::call_counts::count_call;
use crate::copying::copy_from;
use crate::failed::Failed;
use crate::no_memory::NoMemory;
use crate::streams::{Source, Stream};
use std::alloc::Global;

/// Bytes in memory. The reads whose numbers, from 1, are listed fail, and no other.
#[derive(Drop)]
pub struct MemorySource {
    pub bytes: Vec<u8>,
    /// How many of the bytes were read.
    pub at: usize,
    pub fails: Vec<u64>,
    /// How many reads there were, which stands at its type's last value.
    pub calls: u64,
    pub faults: u64,
    ghost within: { at ≤ length bytes.items },
}

impl MemorySource {
    /// Takes the allocator as every form in memory does. This one takes no memory.
    pub fn new(_alloc: Global, bytes: Vec<u8>, fails: Vec<u64>) -> Result<MemorySource, NoMemory>
        ensures bytes { IfOk result (λ s. drop s.at s.bytes.items ≡ bytes.items) }
        ensures fails { IfOk result (λ s. s.fails.items ≡ fails.items) }
        ensures counts { IfOk result (λ s. (s.calls ≡ 0) × (s.faults ≡ 0)) }
    {
        Ok(MemorySource {
            bytes,
            at: 0,
            fails,
            calls: 0,
            faults: 0,
        })
    }
}

impl Stream for MemorySource {
    ghost left = { λ s. Some (drop s.at s.bytes.items) };

    ghost written = { λ s. None };

    ghost read_faults = { λ s. s.faults };

    ghost write_faults = { λ s. 0 };
}

impl Source for MemorySource {
    fn read(&mut self, into: &mut [u8]) -> Result<usize, Failed>
        requires { 0 < length into.old }
        ensures taken { IfOk result (HasTaken (drop self.old.at self.old.bytes.items)
            (drop self.new.at self.new.bytes.items) into.new) }
        ensures err { OnErr result
            (drop self.new.at self.new.bytes.items ≡ drop self.old.at self.old.bytes.items) }
        ensures cause { HasCause self.old.faults self.new.faults result }
        // It fails exactly where the call's number is listed, and else gives as many bytes as there are and fit.
        ensures fails { IsErr result ↔ IsListed self.old.fails.items self.old.calls }
        ensures count { IfOk result
            (λ n. n ≡ min (length into.old) (length (drop self.old.at self.old.bytes.items))) }
        ensures calls { (self.new.calls ≡ counted self.old.calls)
            × (self.new.fails.items ≡ self.old.fails.items) }
    {
        if count_call(&mut self.calls, &self.fails) {
            self.faults = self.faults.saturating_add(1);
            return Err(Failed);
        }
        let count = copy_from(&self.bytes, self.at, into);
        self.at += count;
        Ok(count)
    }
}
