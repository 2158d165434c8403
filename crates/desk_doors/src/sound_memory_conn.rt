ghost use Rattle.std.specs.Prelude.{◌≡◌, ◌+◌, ◌<◌, [], ◌++◌, Some, None, Ok, false, length, drop, min, IfOk};
ghost use Rattle.std.specs.Prelude.{◌||◌, nat_lt, if◌then◌else◌};
ghost use Rattle.panel_edges.specs.Contents.{HasTaken};

use panel_edges::{Failed, NoMemory, Sink, SoundMemorySink, SoundMemorySource, Source, Stream};
use std::alloc::Global;

/// A connection in memory that never fails. It tells nothing as written from the first write that passes its room.
#[derive(Drop)]
pub struct SoundMemoryConn {
    pub input: SoundMemorySource,
    pub output: SoundMemorySink,
}

impl SoundMemoryConn {
    pub fn new(alloc: Global, bytes: Vec<u8>, room: usize) -> Result<SoundMemoryConn, NoMemory>
        ensures bytes { IfOk result (λ c. drop c.input.at c.input.bytes.items ≡ bytes.items) }
        ensures room { IfOk result (λ c. (c.output.bytes.items ≡ []) × (c.output.room ≡ room)
            × (c.output.passed ≡ false)) }
    {
        Ok(SoundMemoryConn {
            input: SoundMemorySource::new(alloc, bytes)?,
            output: SoundMemorySink::new(alloc, room)?,
        })
    }

    // What stands in the place of a connection that was given, and what a door gives where none waits.
    pub(crate) fn empty(alloc: Global) -> SoundMemoryConn {
        SoundMemoryConn {
            input: SoundMemorySource {
                bytes: Vec::new(alloc),
                at: 0,
            },
            output: SoundMemorySink {
                bytes: Vec::new(alloc),
                room: 0,
                passed: false,
            },
        }
    }
}

impl Stream for SoundMemoryConn {
    ghost left = { λ c. Some (drop c.input.at c.input.bytes.items) };

    ghost written = { λ c. if c.output.passed then None else Some c.output.bytes.items };

    ghost read_faults = { λ c. 0 };

    ghost write_faults = { λ c. 0 };
}

impl Source for SoundMemoryConn {
    fn read(&mut self, into: &mut [u8]) -> Result<usize, Failed>
        requires { 0 < length into.old }
        ensures taken { IfOk result (HasTaken (drop self.old.input.at self.old.input.bytes.items)
            (drop self.new.input.at self.new.input.bytes.items) into.new) }
        ensures output { self.new.output ≡ self.old.output }
        // It never fails.
        ensures count { let left = drop self.old.input.at self.old.input.bytes.items in
            result ≡ Ok (min (length into.old) (length left)) }
    {
        self.input.read(into)
    }
}

impl Sink for SoundMemoryConn {
    fn write(&mut self, piece: &[u8]) -> Result<usize, Failed>
        requires { 0 < length piece.now }
        // It never fails and takes the whole piece.
        ensures whole { result ≡ Ok (length piece.now) }
        ensures input { self.new.input ≡ self.old.input }
        ensures passed { let told = length self.old.output.bytes.items + length piece.now in
            self.new.output.passed
            ≡ (self.old.output.passed || nat_lt self.old.output.room told) }
        ensures kept { self.new.output.bytes.items ≡ (if self.new.output.passed
            then self.old.output.bytes.items else self.old.output.bytes.items ++ piece.now) }
    {
        self.output.write(piece)
    }
}
