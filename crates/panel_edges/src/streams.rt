ghost use Rattle.std.specs.Prelude.{◌≡◌, ◌<◌, ◌≤◌, [], List, ℕ, Option, length, take, IfOk, OnErr, IfSome, ◌↔◌};
ghost use Rattle.panel_edges.specs.Faults.{HasCause};
ghost use Rattle.panel_edges.specs.Contents.{Consumes, Grows};

use crate::failed::Failed;

/// What an object that is read or written means: both ends of a connection. One that is only read tells nothing as
/// written and counts no fault of writing, and the other way round.
pub trait Stream {
    /// The bytes that are left to read, where they are told.
    ghost left: { Self → Option (List ℕ) };

    /// The bytes that were written, where they are told.
    ghost written: { Self → Option (List ℕ) };

    /// How often reading has failed.
    ghost read_faults: { Self → ℕ };

    /// How often writing has failed.
    ghost write_faults: { Self → ℕ };
}

/// Bytes that are read from the front.
pub trait Source: Stream {
    /// Reads the next bytes into the front of `into` and answers how many, which is 0 only at the end of the input. A
    /// fault moves nothing.
    fn read(&mut self, into: &mut [u8]) -> Result<usize, Failed>
        requires { 0 < length into.old }
        ensures bound { IfOk result (λ n. n ≤ length into.new) }
        ensures bytes { IfOk result
            (λ n. Consumes (Self.left self.old) (Self.left self.new) (take n into.new)) }
        ensures ends { IfOk result
            (λ n. IfSome (Self.left self.old) (λ bytes. (n ≡ 0) ↔ (bytes ≡ []))) }
        ensures err { OnErr result (Self.left self.new ≡ Self.left self.old) }
        ensures cause { HasCause (Self.read_faults self.old) (Self.read_faults self.new) result }
        ensures written { Self.written self.new ≡ Self.written self.old }
        ensures writes { Self.write_faults self.new ≡ Self.write_faults self.old };
}

/// Bytes that are written at the end.
pub trait Sink: Stream {
    /// Writes the first bytes of a piece, at least one, and answers how many. A fault appends nothing.
    fn write(&mut self, piece: &[u8]) -> Result<usize, Failed>
        requires { 0 < length piece.now }
        ensures bound { IfOk result (λ n. (1 ≤ n) × (n ≤ length piece.now)) }
        ensures bytes { IfOk result (λ n. Grows (Self.written self.old) (Self.written self.new)
            (take n piece.now)) }
        ensures err { OnErr result (Self.written self.new ≡ Self.written self.old) }
        ensures cause { HasCause (Self.write_faults self.old) (Self.write_faults self.new) result }
        ensures left { Self.left self.new ≡ Self.left self.old }
        ensures reads { Self.read_faults self.new ≡ Self.read_faults self.old };
}
