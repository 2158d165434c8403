ghost use Rattle.std.specs.Prelude.{IsTrue};
ghost use Rattle.service_keepers.specs.Tables.{are_distinct_tests, have_distinct_numbers};

use crate::memory_register::MemoryRegister;
use crate::trouble::Trouble;
use panel_edges::Label;
use service_keepers::Visit;
use std::alloc::Global;

/// An open database in memory, in which nothing is kept twice.
#[derive(Drop)]
pub struct MemoryDatabase {
    register: MemoryRegister,
    ghost numbers: { IsTrue (have_distinct_numbers register.visits) },
    ghost pairs: { IsTrue (are_distinct_tests register.tests) },
}

impl MemoryDatabase {
    ghost use Rattle.std.specs.Prelude.{◌≡◌, IfErr, IfOk, OnErr, OnOk, option_map};
    ghost use Rattle.service_keepers.specs.Keeping.{PutsTest, PutsVisit};
    ghost use Rattle.service_keepers.specs.Rows.{test_of, visit_row};
    ghost use Rattle.service_keepers.specs.Tables.{last_day_of, no_tables, visit_numbered};
    ghost use Rattle.register_sqlite.specs.Faults.{IsWantOfMemory, RefusesTest};

    /// Opens one whose tables are empty.
    pub(crate) fn open(alloc: Global) -> Result<MemoryDatabase, Trouble>
        ensures empty { IfOk result (λ database. database.register ≡ no_tables) }
        ensures memory { IfErr result IsWantOfMemory }
    {
        match MemoryRegister::open(alloc) {
            Ok(register) => Ok(MemoryDatabase { register }),
            Err(trouble) => Err(trouble),
        }
    }

    pub(crate) fn put_visit(&mut self, visit: &Visit) -> Result<(), Trouble>
        ensures ok { OnOk result
            (PutsVisit (visit_row visit.now) self.old.register self.new.register) }
        ensures err { OnErr result (self.new.register ≡ self.old.register) }
        ensures memory { IfErr result IsWantOfMemory }
    {
        self.register.put_visit(visit)
    }

    pub(crate) fn find_visit(&mut self, number: u32) -> Result<Option<Visit>, Trouble>
        ensures found { IfOk result (λ visit.
            option_map visit_row visit ≡ visit_numbered number self.old.register.visits) }
        ensures same { self.new.register ≡ self.old.register }
        ensures memory { IfErr result IsWantOfMemory }
    {
        self.register.find_visit(number)
    }

    pub(crate) fn put_test(&mut self, visit: u32, point: &Label) -> Result<(), Trouble>
        ensures ok { OnOk result
            (PutsTest (test_of visit point.now) self.old.register self.new.register) }
        ensures err { OnErr result (self.new.register ≡ self.old.register) }
        ensures refused { IfErr result (RefusesTest self.old.register.tests) }
    {
        self.register.put_test(visit, point)
    }

    pub(crate) fn last_day(&mut self, point: &Label) -> Result<Option<u32>, Trouble>
        ensures day { IfOk result (λ day. day ≡ last_day_of point.now.bytes self.old.register) }
        ensures same { self.new.register ≡ self.old.register }
        ensures memory { IfErr result IsWantOfMemory }
    {
        self.register.last_day(point)
    }
}
