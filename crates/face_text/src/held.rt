ghost use Rattle.std.specs.Prelude.{◌≡◌, ◌≤◌, ◌+◌, ◌++◌, [], length, OnErr, OnOk};
ghost use Rattle.panel_edges.specs.Contents.{Grows, GrowsByFront};
ghost use Rattle.panel_edges.specs.Faults.{HasCause};
ghost use Rattle.face_text.specs.Holding.{Puts};

use arrayvec::ArrayVec;
use panel_edges::{Failed, Sink, write_all};
use std::marker::Model;

/// A room of 1,024 bytes in which lines are held back until it is full. Contracts see the bytes that are held.
#[derive(Drop)]
pub struct Held {
    bytes: ArrayVec<u8, 1024>,
}

impl Model for Held {
    ghost use Rattle.std.specs.Prelude.{ℕ, List};
    ghost use Rattle.std.specs.Coded.{coded_list, coded_ℕ};

    ghost Value = { List ℕ };

    ghost coded = { coded_list coded_ℕ };

    ghost view = { λ held. held.bytes.items };
}

impl Held {
    pub fn new() -> Held
        ensures { result ≡ [] }
    {
        Held {
            bytes: ArrayVec::new(),
        }
    }

    /// Puts a text of at most 1,024 bytes behind what is held, and writes that first where there is no room.
    pub fn push<K: Sink>(&mut self, line: &[u8], out: &mut K) -> Result<(), Failed>
        requires { length line.now ≤ 1024 }
        ensures text { Puts self.old self.new (K.written out.old) (K.written out.new) line.now
            result }
        ensures cause { HasCause (K.write_faults out.old) (K.write_faults out.new) result }
        ensures left { K.left out.new ≡ K.left out.old }
        ensures reads { K.read_faults out.new ≡ K.read_faults out.old }
    {
        self.make_room(line.len(), out)?;
        self.append(line);
        Ok(())
    }

    /// Writes what is held where there is no room for so many bytes more.
    pub(crate) fn make_room<K: Sink>(&mut self, count: usize, out: &mut K) -> Result<(), Failed>
        requires { count ≤ 1024 }
        ensures text { Puts self.old self.new (K.written out.old) (K.written out.new) [] result }
        ensures room { OnOk result (length self.new + count ≤ 1024) }
        ensures cause { HasCause (K.write_faults out.old) (K.write_faults out.new) result }
        ensures left { K.left out.new ≡ K.left out.old }
        ensures reads { K.read_faults out.new ≡ K.read_faults out.old }
    {
        if self.bytes.len() + count > 1024 {
            self.flush(out)
        } else {
            Ok(())
        }
    }

    /// Puts a piece for which there is room behind what is held.
    pub(crate) fn append(&mut self, piece: &[u8])
        requires { length self.old + length piece.now ≤ 1024 }
        ensures { self.new ≡ self.old ++ piece.now }
    {
        let _fits = self.bytes.try_extend_from_slice(piece);
    }

    /// Writes what is held, in one piece.
    pub fn flush<K: Sink>(&mut self, out: &mut K) -> Result<(), Failed>
        ensures ok { OnOk result (self.new ≡ []) }
        ensures written { OnOk result (Grows (K.written out.old) (K.written out.new) self.old) }
        ensures err { OnErr result (GrowsByFront (K.written out.old) (K.written out.new) self.old) }
        ensures cause { HasCause (K.write_faults out.old) (K.write_faults out.new) result }
        ensures left { K.left out.new ≡ K.left out.old }
        ensures reads { K.read_faults out.new ≡ K.read_faults out.old }
    {
        write_all(out, self.bytes.as_slice())?;
        self.bytes.clear();
        Ok(())
    }
}
