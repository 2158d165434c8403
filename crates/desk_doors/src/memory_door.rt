ghost use Rattle.std.specs.Prelude.{◌≡◌, ◌⊎◌, ◌≤◌, ◌↔◌, [], ◌∷◌, true, false, Some, length, map, is_ok};
ghost use Rattle.std.specs.Prelude.{IfOk, IsErr, IsTrue, OnErr};
ghost use Rattle.panel_edges.specs.Faults.{HasCause, IsListed, counted};
ghost use Rattle.desk_doors.specs.MemoryDoors.{given_back, not_given, told_conn};

use crate::doors::Door;
use crate::memory_conn::MemoryConn;
use panel_edges::{Failed, NoMemory};
use std::alloc::Global;
use std::mem;

/// A door in memory. It fails at the calls of [`Door::start`] and [`Door::next`] whose numbers, from 1, are listed, and
/// where no connection waits.
#[derive(Drop)]
pub struct MemoryDoor {
    /// Each connection in its place: as it waits, an empty one while it is out, and as it was handed back.
    pub conns: Vec<MemoryConn>,
    /// How many were given.
    pub given: usize,
    /// Whether the last of these is not handed back yet.
    pub is_out: bool,
    pub fails: Vec<u64>,
    /// How many calls there were, which stands at its type's last value.
    pub calls: u64,
    pub faults: u64,
    alloc: Global,
    ghost within: { given ≤ length conns.items },
    ghost some_given: { is_out ≡ true → 1 ≤ given },
}

impl MemoryDoor {
    pub fn new(
        alloc: Global,
        conns: Vec<MemoryConn>,
        fails: Vec<u64>,
    ) -> Result<MemoryDoor, NoMemory>
        ensures waiting { IfOk result (λ d. not_given told_conn d.conns.items d.given
            ≡ map told_conn conns.items) }
        ensures handed { IfOk result
            (λ d. given_back told_conn d.conns.items d.given d.is_out ≡ []) }
        ensures fails { IfOk result (λ d. d.fails.items ≡ fails.items) }
        ensures counts { IfOk result (λ d. (d.calls ≡ 0) × (d.faults ≡ 0) × (d.is_out ≡ false)) }
    {
        Ok(MemoryDoor {
            conns,
            given: 0,
            is_out: false,
            fails,
            calls: 0,
            faults: 0,
            alloc,
        })
    }
}

impl Door for MemoryDoor {
    type Conn = MemoryConn;

    ghost waiting = { λ d. Some (not_given told_conn d.conns.items d.given) };

    ghost handed = { λ d. Some (given_back told_conn d.conns.items d.given d.is_out) };

    ghost is_out = { λ d. d.is_out };

    ghost faults = { λ d. d.faults };

    fn start(&mut self, _port: u16) -> Result<(), Failed>
        ensures conns { self.new.conns ≡ self.old.conns }
        ensures given { (self.new.given ≡ self.old.given) × (self.new.is_out ≡ self.old.is_out) }
        ensures cause { HasCause self.old.faults self.new.faults result }
        // It fails exactly where the call's number is listed.
        ensures fails { IsErr result ↔ IsListed self.old.fails.items self.old.calls }
        ensures calls { (self.new.calls ≡ counted self.old.calls)
            × (self.new.fails.items ≡ self.old.fails.items) }
    {
        if count_call(&mut self.calls, &self.fails) {
            self.faults = self.faults.saturating_add(1);
            return Err(Failed);
        }
        Ok(())
    }

    fn next(&mut self) -> Result<MemoryConn, Failed>
        requires { self.old.is_out ≡ false }
        ensures given { IfOk result (λ conn. not_given told_conn self.old.conns.items self.old.given
            ≡ told_conn conn ∷ not_given told_conn self.new.conns.items self.new.given) }
        ensures err { OnErr result ((self.new.conns ≡ self.old.conns)
            × (self.new.given ≡ self.old.given)) }
        ensures handed { given_back told_conn self.new.conns.items self.new.given self.new.is_out
            ≡ given_back told_conn self.old.conns.items self.old.given false }
        ensures out { self.new.is_out ≡ is_ok result }
        ensures cause { HasCause self.old.faults self.new.faults result }
        // It fails exactly where the call's number is listed or no connection waits.
        ensures fails { IsErr result ↔ (IsListed self.old.fails.items self.old.calls
            ⊎ (self.old.given ≡ length self.old.conns.items)) }
        ensures calls { (self.new.calls ≡ counted self.old.calls)
            × (self.new.fails.items ≡ self.old.fails.items) }
    {
        if count_call(&mut self.calls, &self.fails) || self.given == self.conns.len() {
            self.faults = self.faults.saturating_add(1);
            return Err(Failed);
        }
        let place = self.given;
        let conn = mem::replace(&mut self.conns[place], MemoryConn::empty(self.alloc));
        self.given += 1;
        self.is_out = true;
        Ok(conn)
    }

    fn finish(&mut self, conn: MemoryConn) {
        let place = self.given - 1;
        self.conns[place] = conn;
        self.is_out = false;
    }
}

// Counts a call, and tells whether it is to fail.
fn count_call(calls: &mut u64, fails: &[u64]) -> bool
    ensures calls { calls.new ≡ counted calls.old }
    ensures listed { IsTrue result ↔ IsListed fails.now calls.old }
{
    *calls = calls.saturating_add(1);
    fails.contains(calls)
}
