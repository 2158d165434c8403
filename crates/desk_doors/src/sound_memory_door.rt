ghost use Rattle.std.specs.Prelude.{◌≡◌, ◌≤◌, true, false, Some, None, length, map, IfOk, if◌then◌else◌, List, []};
ghost use Rattle.desk_doors.specs.MemoryDoors.{given_back, not_given, told_sound_conn};

use crate::doors::Door;
use crate::sound_memory_conn::SoundMemoryConn;
use panel_edges::{Failed, NoMemory};
use std::alloc::Global;
use std::mem;

/// A door in memory that never fails. From the first [`Door::next`] that finds no connection on, it gives empty ones,
/// keeps none of these and tells none.
#[derive(Drop)]
pub struct SoundMemoryDoor {
    /// Each connection in its place: as it waits, an empty one while it is out, and as it was handed back.
    pub conns: Vec<SoundMemoryConn>,
    /// How many of these were given.
    pub given: usize,
    /// Whether the last connection that was given is not handed back yet.
    pub is_out: bool,
    /// Whether a call has found no connection.
    pub passed: bool,
    alloc: Global,
    ghost within: { given ≤ length conns.items },
    ghost some_given: { is_out ≡ true → passed ≡ false → 1 ≤ given },
}

impl SoundMemoryDoor {
    pub fn new(alloc: Global, conns: Vec<SoundMemoryConn>) -> Result<SoundMemoryDoor, NoMemory>
        ensures waiting { IfOk result (λ d. not_given told_sound_conn d.conns.items d.given
            ≡ map told_sound_conn conns.items) }
        ensures handed { IfOk result
            (λ d. given_back told_sound_conn d.conns.items d.given d.is_out ≡ []) }
        ensures begun { IfOk result (λ d. (d.passed ≡ false) × (d.is_out ≡ false)) }
    {
        Ok(SoundMemoryDoor {
            conns,
            given: 0,
            is_out: false,
            passed: false,
            alloc,
        })
    }
}

impl Door for SoundMemoryDoor {
    type Conn = SoundMemoryConn;

    ghost waiting = { λ d. if d.passed then None
        else Some (not_given told_sound_conn d.conns.items d.given) };

    ghost handed = { λ d. if d.passed then None
        else Some (given_back told_sound_conn d.conns.items d.given d.is_out) };

    ghost is_out = { λ d. d.is_out };

    ghost faults = { λ d. 0 };

    fn start(&mut self, _port: u16) -> Result<(), Failed> {
        Ok(())
    }

    fn next(&mut self) -> Result<SoundMemoryConn, Failed> {
        let empty = SoundMemoryConn::empty(self.alloc);
        self.is_out = true;
        if self.passed || self.given == self.conns.len() {
            self.passed = true;
            return Ok(empty);
        }
        let place = self.given;
        let conn = mem::replace(&mut self.conns[place], empty);
        self.given += 1;
        Ok(conn)
    }

    fn finish(&mut self, conn: SoundMemoryConn) {
        self.is_out = false;
        if !self.passed {
            let place = self.given - 1;
            self.conns[place] = conn;
        }
    }
}
