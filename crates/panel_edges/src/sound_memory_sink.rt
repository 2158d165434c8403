ghost use Rattle.std.specs.Prelude.{◌≡◌, ◌+◌, ◌<◌, ◌≤◌, [], ◌++◌, Some, None, Ok, Bool, true, false, if◌then◌else◌};
ghost use Rattle.std.specs.Prelude.{◌||◌, nat_lt, length, IfOk, vec_capacity};

use crate::failed::Failed;
use crate::no_memory::NoMemory;
use crate::overwriting::append_reserved;
use crate::streams::{Sink, Stream};
use std::alloc::Global;

/// A sink in memory whose writes never fail. From the first write that passes its room on it takes what it is given,
/// keeps no more of it and tells no content.
#[derive(Drop)]
pub struct SoundMemorySink {
    pub bytes: Vec<u8>,
    /// How many bytes there is room for.
    pub room: usize,
    /// Whether a write has passed the room.
    pub passed: bool,
    ghost within: { length bytes.items ≤ room },
    ghost reserved: { room ≤ vec_capacity bytes },
}

impl SoundMemorySink {
    pub fn new(alloc: Global, room: usize) -> Result<SoundMemorySink, NoMemory>
        ensures { IfOk result (λ s. (s.bytes.items ≡ []) × (s.room ≡ room) × (s.passed ≡ false)) }
    {
        match Vec::with_capacity(alloc, room) {
            Ok(bytes) => Ok(SoundMemorySink {
                bytes,
                room,
                passed: false,
            }),
            Err(_) => Err(NoMemory),
        }
    }
}

impl Stream for SoundMemorySink {
    ghost left = { λ s. None };

    ghost written = { λ s. if s.passed then None else Some s.bytes.items };

    ghost read_faults = { λ s. 0 };

    ghost write_faults = { λ s. 0 };
}

impl Sink for SoundMemorySink {
    fn write(&mut self, piece: &[u8]) -> Result<usize, Failed>
        requires { 0 < length piece.now }
        // It never fails and takes the whole piece, which is kept where no write has passed the room.
        ensures whole { result ≡ Ok (length piece.now) }
        ensures passed { self.new.passed
            ≡ (self.old.passed
            || nat_lt self.old.room (length self.old.bytes.items + length piece.now)) }
        ensures kept { self.new.bytes.items
            ≡ (if self.new.passed then self.old.bytes.items else self.old.bytes.items
            ++ piece.now) }
        ensures room { self.new.room ≡ self.old.room }
    {
        if self.passed || self.room - self.bytes.len() < piece.len() {
            self.passed = true;
            return Ok(piece.len());
        }
        append_reserved(&mut self.bytes, piece);
        Ok(piece.len())
    }
}
