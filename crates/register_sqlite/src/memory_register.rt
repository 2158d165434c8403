use crate::asking::{self, make_tables};
use crate::trouble::Trouble;
use panel_edges::Label;
use service_keepers::Visit;
use sqlite::{Connection, Error, ErrorCode, MemStore};
use std::alloc::Global;
use std::marker::Model;

/// An open database in memory that is a register. Contracts see it as its tables.
#[derive(Drop)]
pub struct MemoryRegister {
    conn: Connection<MemStore>,
}

impl Model for MemoryRegister {
    ghost use Rattle.service_keepers.specs.Tables.{Tables};
    ghost use Rattle.sqlite.specs.Held.{state};
    ghost use Rattle.sqlite.specs.Steps.{over_memory};
    ghost use Rattle.register_sqlite.specs.Stored.{IsRegister, tables_in};

    ghost Value = { Tables };

    ghost view = { λ r. tables_in (state over_memory r.conn).now.trees };

    ghost invariant = { λ r. IsRegister (state over_memory r.conn) };
}

impl MemoryRegister {
    ghost use Rattle.std.specs.Prelude.{◌≡◌, IfErr, IfOk, OnErr, OnOk, option_map};
    ghost use Rattle.service_keepers.specs.Keeping.{PutsTest, PutsVisit};
    ghost use Rattle.service_keepers.specs.Rows.{test_of, visit_row};
    ghost use Rattle.service_keepers.specs.Tables.{AreDistinct, last_day_of, no_tables, visit_numbered};
    ghost use Rattle.register_sqlite.specs.Faults.{IsWantOfMemory, RefusesTest};

    /// Opens one whose tables are empty.
    pub(crate) fn open(alloc: Global) -> Result<MemoryRegister, Trouble>
        ensures empty { IfOk result (λ register. register ≡ no_tables) }
        ensures memory { IfErr result IsWantOfMemory }
    {
        let Ok(mut conn) = Connection::open_in_memory(alloc) else {
            return Err(Trouble::Opening(Error::SqliteFailure(ErrorCode::OutOfMemory)));
        };
        match make_tables(&mut conn) {
            Ok(()) => Ok(MemoryRegister { conn }),
            Err(trouble) => Err(trouble),
        }
    }

    pub(crate) fn put_visit(&mut self, visit: &Visit) -> Result<(), Trouble>
        ensures ok { OnOk result (PutsVisit (visit_row visit.now) self.old self.new) }
        ensures err { OnErr result (self.new ≡ self.old) }
        ensures memory { IfErr result IsWantOfMemory }
        ensures distinct { AreDistinct self.new }
    {
        asking::put_visit(&mut self.conn, visit)
    }

    pub(crate) fn find_visit(&mut self, number: u32) -> Result<Option<Visit>, Trouble>
        ensures found { IfOk result (λ visit.
            option_map visit_row visit ≡ visit_numbered number self.old.visits) }
        ensures same { self.new ≡ self.old }
        ensures memory { IfErr result IsWantOfMemory }
    {
        asking::find_visit(&mut self.conn, number)
    }

    pub(crate) fn put_test(&mut self, visit: u32, point: &Label) -> Result<(), Trouble>
        ensures ok { OnOk result (PutsTest (test_of visit point.now) self.old self.new) }
        ensures err { OnErr result (self.new ≡ self.old) }
        ensures refused { IfErr result (RefusesTest self.old.tests) }
        ensures distinct { AreDistinct self.new }
    {
        asking::put_test(&mut self.conn, visit, point)
    }

    pub(crate) fn last_day(&mut self, point: &Label) -> Result<Option<u32>, Trouble>
        ensures day { IfOk result (λ day. day ≡ last_day_of point.now.bytes self.old) }
        ensures same { self.new ≡ self.old }
        ensures memory { IfErr result IsWantOfMemory }
    {
        asking::last_day(&mut self.conn, point)
    }
}
