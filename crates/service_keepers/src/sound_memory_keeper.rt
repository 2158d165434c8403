use crate::keep_fault::KeepFault;
use crate::keepers::Keeper;
use crate::memory_tables::MemoryTables;
use crate::visit::Visit;
use panel_edges::{Label, NoMemory};
use std::alloc::Global;

/// A keeper in memory whose calls never fail, but for want of memory.
#[derive(Drop)]
pub struct SoundMemoryKeeper {
    pub tables: MemoryTables,
}

impl SoundMemoryKeeper {
    ghost use Rattle.std.specs.Prelude.{◌≡◌, IfOk};
    ghost use Rattle.service_keepers.specs.MemoryRows.{tables_of};
    ghost use Rattle.service_keepers.specs.Tables.{no_tables};

    /// A keeper of empty tables, which take memory from this allocator as they grow. This call takes none.
    pub fn new(alloc: Global) -> Result<SoundMemoryKeeper, NoMemory>
        ensures { IfOk result (λ keeper. tables_of keeper.tables ≡ no_tables) }
    {
        Ok(SoundMemoryKeeper {
            tables: MemoryTables::new(alloc),
        })
    }
}

impl Keeper for SoundMemoryKeeper {
    ghost use Rattle.std.specs.Prelude.{◌≡◌, Some, IfErr, IsOkAnd, OnErr, OnOk, option_map};
    ghost use Rattle.service_keepers.specs.Keeping.{PutsTest, PutsVisit};
    ghost use Rattle.service_keepers.specs.MemoryRows.{tables_of, told_distinct, with_test, with_visit};
    ghost use Rattle.service_keepers.specs.Rows.{test_of, visit_row};
    ghost use Rattle.service_keepers.specs.Tables.{last_day_of, visit_numbered};

    ghost tables = { λ k. Some (tables_of k.tables) };

    ghost faults = { λ k. 0 };

    ghost distinct = { λ k kept told. told_distinct k.tables kept told };

    fn put_visit(&mut self, visit: &Visit) -> Result<(), KeepFault>
        ensures ok { OnOk result (PutsVisit (visit_row visit.now) (tables_of self.old.tables)
            (tables_of self.new.tables)) }
        ensures last { OnOk result (tables_of self.new.tables
            ≡ with_visit (visit_row visit.now) (tables_of self.old.tables)) }
        ensures err { OnErr result (tables_of self.new.tables ≡ tables_of self.old.tables) }
        ensures memory { IfErr result (λ fault. fault ≡ KeepFault.NoMemory) }
    {
        self.tables.put_visit(visit)
    }

    fn find_visit(&mut self, number: u32) -> Result<Option<Visit>, KeepFault>
        ensures found { IsOkAnd result (λ visit. option_map visit_row visit
            ≡ visit_numbered number (tables_of self.old.tables).visits) }
        ensures same { tables_of self.new.tables ≡ tables_of self.old.tables }
    {
        Ok(self.tables.find_visit(number))
    }

    fn put_test(&mut self, visit: u32, point: &Label) -> Result<(), KeepFault>
        ensures ok { OnOk result (PutsTest (test_of visit point.now) (tables_of self.old.tables)
            (tables_of self.new.tables)) }
        ensures last { OnOk result (tables_of self.new.tables
            ≡ with_test (test_of visit point.now) (tables_of self.old.tables)) }
        ensures err { OnErr result (tables_of self.new.tables ≡ tables_of self.old.tables) }
        ensures memory { IfErr result (λ fault. fault ≡ KeepFault.NoMemory) }
    {
        self.tables.put_test(visit, point)
    }

    fn last_day(&mut self, point: &Label) -> Result<Option<u32>, KeepFault>
        ensures day { IsOkAnd result
            (λ day. day ≡ last_day_of point.now.bytes (tables_of self.old.tables)) }
        ensures same { tables_of self.new.tables ≡ tables_of self.old.tables }
    {
        Ok(self.tables.last_day(point))
    }
}
