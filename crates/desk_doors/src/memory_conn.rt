ghost use Rattle.std.specs.Prelude.{◌≡◌, ◌⊎◌, ◌+◌, ◌<◌, ◌↔◌, [], ◌++◌, Some, length, drop, min, IfOk, IsErr, OnErr};
ghost use Rattle.panel_edges.specs.Contents.{HasTaken};
ghost use Rattle.panel_edges.specs.Faults.{HasCause, IsListed};

use panel_edges::{Failed, MemorySink, MemorySource, NoMemory, Sink, Source, Stream};
use std::alloc::Global;

/// A connection in memory: what comes is a source of its own, and what is answered a sink.
#[derive(Drop)]
pub struct MemoryConn {
    pub input: MemorySource,
    pub output: MemorySink,
}

impl MemoryConn {
    /// A connection with these bytes to read and room for so many to write, whose listed reads and writes, by their
    /// numbers from 1, fail.
    pub fn new(
        alloc: Global,
        bytes: Vec<u8>,
        room: usize,
        read_fails: Vec<u64>,
        write_fails: Vec<u64>,
    ) -> Result<MemoryConn, NoMemory>
        ensures bytes { IfOk result (λ c. drop c.input.at c.input.bytes.items ≡ bytes.items) }
        ensures room { IfOk result (λ c. (c.output.bytes.items ≡ []) × (c.output.room ≡ room)) }
        ensures fails { IfOk result (λ c. (c.input.fails.items ≡ read_fails.items)
            × (c.output.fails.items ≡ write_fails.items)) }
    {
        Ok(MemoryConn {
            input: MemorySource::new(alloc, bytes, read_fails)?,
            output: MemorySink::new(alloc, room, write_fails)?,
        })
    }

    // What stands in the place of a connection that was given.
    pub(crate) fn empty(alloc: Global) -> MemoryConn {
        MemoryConn {
            input: MemorySource {
                bytes: Vec::new(alloc),
                at: 0,
                fails: Vec::new(alloc),
                calls: 0,
                faults: 0,
            },
            output: MemorySink {
                bytes: Vec::new(alloc),
                room: 0,
                fails: Vec::new(alloc),
                calls: 0,
                faults: 0,
            },
        }
    }
}

impl Stream for MemoryConn {
    ghost left = { λ c. Some (drop c.input.at c.input.bytes.items) };

    ghost written = { λ c. Some c.output.bytes.items };

    ghost read_faults = { λ c. c.input.faults };

    ghost write_faults = { λ c. c.output.faults };
}

impl Source for MemoryConn {
    fn read(&mut self, into: &mut [u8]) -> Result<usize, Failed>
        requires { 0 < length into.old }
        ensures taken { IfOk result (HasTaken (drop self.old.input.at self.old.input.bytes.items)
            (drop self.new.input.at self.new.input.bytes.items) into.new) }
        ensures err { OnErr result (drop self.new.input.at self.new.input.bytes.items
            ≡ drop self.old.input.at self.old.input.bytes.items) }
        ensures cause { HasCause self.old.input.faults self.new.input.faults result }
        ensures output { self.new.output ≡ self.old.output }
        // It fails exactly where the read's number is listed.
        ensures fails { IsErr result ↔ IsListed self.old.input.fails.items self.old.input.calls }
    {
        self.input.read(into)
    }
}

impl Sink for MemoryConn {
    fn write(&mut self, piece: &[u8]) -> Result<usize, Failed>
        requires { 0 < length piece.now }
        ensures err { OnErr result (self.new.output.bytes.items ≡ self.old.output.bytes.items) }
        ensures cause { HasCause self.old.output.faults self.new.output.faults result }
        ensures input { self.new.input ≡ self.old.input }
        // It fails exactly where the write's number is listed or the piece passes the room, and else takes the whole
        // piece.
        ensures fails { IsErr result ↔ (IsListed self.old.output.fails.items self.old.output.calls
            ⊎ (self.old.output.room < length self.old.output.bytes.items + length piece.now)) }
        ensures whole { IfOk result (λ n. (n ≡ length piece.now)
            × (self.new.output.bytes.items ≡ self.old.output.bytes.items ++ piece.now)) }
    {
        self.output.write(piece)
    }
}
