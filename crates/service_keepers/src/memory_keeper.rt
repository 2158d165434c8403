use crate::keep_fault::KeepFault;
use crate::keepers::Keeper;
use crate::memory_tables::MemoryTables;
use crate::visit::Visit;
use panel_edges::{Label, NoMemory, count_call};
use std::alloc::Global;

/// A keeper in memory. The calls whose numbers, from 1, are listed fail, and no other.
#[derive(Drop)]
pub struct MemoryKeeper {
    pub tables: MemoryTables,
    pub fails: Vec<u64>,
    /// How many calls there were, which stands at its type's last value.
    pub calls: u64,
    pub faults: u64,
}

impl MemoryKeeper {
    ghost use Rattle.std.specs.Prelude.{◌≡◌, IfOk, IsErr, ◌↔◌};
    ghost use Rattle.panel_edges.specs.Faults.{IsListed};
    ghost use Rattle.service_keepers.specs.MemoryCalls.{HasCounted};
    ghost use Rattle.service_keepers.specs.MemoryRows.{tables_of};
    ghost use Rattle.service_keepers.specs.Tables.{no_tables};

    /// A keeper of empty tables, which take memory from this allocator as they grow. This call takes none.
    pub fn new(alloc: Global, fails: Vec<u64>) -> Result<MemoryKeeper, NoMemory>
        ensures tables { IfOk result (λ keeper. tables_of keeper.tables ≡ no_tables) }
        ensures fails { IfOk result (λ keeper. keeper.fails.items ≡ fails.items) }
        ensures counts { IfOk result (λ keeper. (keeper.calls ≡ 0) × (keeper.faults ≡ 0)) }
    {
        Ok(MemoryKeeper {
            tables: MemoryTables::new(alloc),
            fails,
            calls: 0,
            faults: 0,
        })
    }

    // Counts a call, which fails where its number is listed.
    fn count(&mut self) -> Result<(), KeepFault>
        ensures counted { HasCounted self.old self.new result }
        ensures tables { tables_of self.new.tables ≡ tables_of self.old.tables }
        ensures variant { IsErr result ↔ IsListed self.old.fails.items self.old.calls }
    {
        if count_call(&mut self.calls, &self.fails) {
            self.faults = self.faults.saturating_add(1);
            return Err(KeepFault::Failed);
        }
        Ok(())
    }
}

impl Keeper for MemoryKeeper {
    ghost use Rattle.std.specs.Prelude.{◌≡◌, Some, option_map, IfOk, OnErr, OnOk};
    ghost use Rattle.service_keepers.specs.Keeping.{PutsTest, PutsVisit};
    ghost use Rattle.service_keepers.specs.MemoryCalls.{HasCounted};
    ghost use Rattle.service_keepers.specs.MemoryRows.{tables_of, told_distinct, with_test, with_visit};
    ghost use Rattle.service_keepers.specs.Rows.{test_of, visit_row};
    ghost use Rattle.service_keepers.specs.Tables.{last_day_of, visit_numbered};

    ghost tables = { λ k. Some (tables_of k.tables) };

    ghost faults = { λ k. k.faults };

    ghost distinct = { λ k kept told. told_distinct k.tables kept told };

    fn put_visit(&mut self, visit: &Visit) -> Result<(), KeepFault>
        ensures ok { OnOk result (PutsVisit (visit_row visit.now) (tables_of self.old.tables)
            (tables_of self.new.tables)) }
        ensures last { OnOk result (tables_of self.new.tables
            ≡ with_visit (visit_row visit.now) (tables_of self.old.tables)) }
        ensures err { OnErr result (tables_of self.new.tables ≡ tables_of self.old.tables) }
        ensures counted { HasCounted self.old self.new result }
    {
        self.count()?;
        self.tables.put_visit(visit)
    }

    fn find_visit(&mut self, number: u32) -> Result<Option<Visit>, KeepFault>
        ensures found { IfOk result (λ visit. option_map visit_row visit
            ≡ visit_numbered number (tables_of self.old.tables).visits) }
        ensures same { tables_of self.new.tables ≡ tables_of self.old.tables }
        ensures counted { HasCounted self.old self.new result }
    {
        self.count()?;
        Ok(self.tables.find_visit(number))
    }

    fn put_test(&mut self, visit: u32, point: &Label) -> Result<(), KeepFault>
        ensures ok { OnOk result (PutsTest (test_of visit point.now) (tables_of self.old.tables)
            (tables_of self.new.tables)) }
        ensures last { OnOk result (tables_of self.new.tables
            ≡ with_test (test_of visit point.now) (tables_of self.old.tables)) }
        ensures err { OnErr result (tables_of self.new.tables ≡ tables_of self.old.tables) }
        ensures counted { HasCounted self.old self.new result }
    {
        self.count()?;
        self.tables.put_test(visit, point)
    }

    fn last_day(&mut self, point: &Label) -> Result<Option<u32>, KeepFault>
        ensures day { IfOk result
            (λ day. day ≡ last_day_of point.now.bytes (tables_of self.old.tables)) }
        ensures same { tables_of self.new.tables ≡ tables_of self.old.tables }
        ensures counted { HasCounted self.old self.new result }
    {
        self.count()?;
        Ok(self.tables.last_day(point))
    }
}
