ghost use Rattle.std.specs.Prelude.{◌≡◌, ◌⊎◌, ◌+◌, ◌<◌, ◌≤◌, [], ◌++◌, ◌↔◌, Some, None, length, take, IfOk, IsErr};
ghost use Rattle.std.specs.Prelude.{OnErr, vec_capacity};
ghost use Rattle.panel_edges.specs.Faults.{HasCause, IsListed, counted};

use crate::call_counts::count_call;
use crate::failed::Failed;
use crate::no_memory::NoMemory;
use crate::overwriting::append_reserved;
use crate::streams::{Sink, Stream};
use std::alloc::Global;

/// A sink in memory, which keeps what is written in a room that is reserved when it is made. The writes whose numbers,
/// from 1, are listed fail, and so does each that passes the room, and no other.
#[derive(Drop)]
pub struct MemorySink {
    pub bytes: Vec<u8>,
    /// How many bytes there is room for.
    pub room: usize,
    pub fails: Vec<u64>,
    /// How many writes there were, which stands at its type's last value.
    pub calls: u64,
    pub faults: u64,
    ghost within: { length bytes.items ≤ room },
    ghost reserved: { room ≤ vec_capacity bytes },
}

impl MemorySink {
    pub fn new(alloc: Global, room: usize, fails: Vec<u64>) -> Result<MemorySink, NoMemory>
        ensures bytes { IfOk result (λ s. (s.bytes.items ≡ []) × (s.room ≡ room)) }
        ensures fails { IfOk result (λ s. s.fails.items ≡ fails.items) }
        ensures counts { IfOk result (λ s. (s.calls ≡ 0) × (s.faults ≡ 0)) }
    {
        match Vec::with_capacity(alloc, room) {
            Ok(bytes) => Ok(MemorySink {
                bytes,
                room,
                fails,
                calls: 0,
                faults: 0,
            }),
            Err(_) => Err(NoMemory),
        }
    }
}

impl Stream for MemorySink {
    ghost left = { λ s. None };

    ghost written = { λ s. Some s.bytes.items };

    ghost read_faults = { λ s. 0 };

    ghost write_faults = { λ s. s.faults };
}

impl Sink for MemorySink {
    fn write(&mut self, piece: &[u8]) -> Result<usize, Failed>
        requires { 0 < length piece.now }
        ensures err { OnErr result (self.new.bytes.items ≡ self.old.bytes.items) }
        ensures cause { HasCause self.old.faults self.new.faults result }
        // It fails exactly where the call's number is listed or the piece passes the room, and else takes the
        // whole piece.
        ensures fails { IsErr result ↔ (IsListed self.old.fails.items self.old.calls
            ⊎ (self.old.room < length self.old.bytes.items + length piece.now)) }
        ensures whole { IfOk result (λ n. (n ≡ length piece.now)
            × (self.new.bytes.items ≡ self.old.bytes.items ++ piece.now)) }
        ensures calls { (self.new.calls ≡ counted self.old.calls)
            × (self.new.fails.items ≡ self.old.fails.items) × (self.new.room ≡ self.old.room) }
    {
        let is_listed = count_call(&mut self.calls, &self.fails);
        if is_listed || self.room - self.bytes.len() < piece.len() {
            self.faults = self.faults.saturating_add(1);
            return Err(Failed);
        }
        append_reserved(&mut self.bytes, piece);
        Ok(piece.len())
    }
}
