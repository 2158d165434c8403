//! The keeper over a database in memory, which tells its tables.

use crate::answers::settle;
use crate::memory_database::MemoryDatabase;
use crate::table_keeper::TableKeeper;
use crate::trouble::Trouble;
use panel_edges::Label;
use service_keepers::{KeepFault, Keeper, Visit};
use sqlite::MemStore;
use std::alloc::Global;

impl TableKeeper<MemStore> {
    ghost use Rattle.std.specs.Prelude.{◌≡◌, IfErr, IfOk, IsSome, OnErr, OnOk, option_map};
    ghost use Rattle.service_keepers.specs.Keeping.{PutsTest, PutsVisit};
    ghost use Rattle.service_keepers.specs.Rows.{test_of, visit_row};
    ghost use Rattle.service_keepers.specs.Tables.{last_day_of, no_tables, visit_numbered};
    ghost use Rattle.register_sqlite.specs.Faults.{IsWantOfMemory, RefusesTest};
    ghost use Rattle.register_sqlite.specs.Kept.{tables_kept};

    /// A keeper of empty tables, which take memory from this allocator as they grow. This call takes none.
    pub fn in_memory(alloc: Global) -> TableKeeper<MemStore>
        ensures tables { tables_kept result.database ≡ no_tables }
        ensures faults { result.faults ≡ 0 }
    {
        TableKeeper {
            place: alloc,
            database: None,
            faults: 0,
            trouble: None,
        }
    }

    // Opens the database where it isn't open.
    fn open(&mut self) -> Result<(), Trouble>
        ensures open { OnOk result (IsSome self.new.database) }
        ensures same { tables_kept self.new.database ≡ tables_kept self.old.database }
        ensures memory { IfErr result IsWantOfMemory }
        ensures count { self.new.faults ≡ self.old.faults }
    {
        if self.database.is_some() {
            return Ok(());
        }
        match MemoryDatabase::open(self.place) {
            Ok(database) => {
                self.database = Some(database);
                Ok(())
            }
            Err(trouble) => Err(trouble),
        }
    }

    fn ask_put_visit(&mut self, visit: &Visit) -> Result<(), Trouble>
        ensures ok { OnOk result (PutsVisit (visit_row visit.now)
            (tables_kept self.old.database) (tables_kept self.new.database)) }
        ensures err { OnErr result (tables_kept self.new.database ≡ tables_kept self.old.database) }
        ensures memory { IfErr result IsWantOfMemory }
        ensures count { self.new.faults ≡ self.old.faults }
    {
        match self.open() {
            Ok(()) => match &mut self.database {
                Some(database) => database.put_visit(visit),
                None => unreachable!(),
            },
            Err(trouble) => Err(trouble),
        }
    }

    fn ask_find_visit(&mut self, number: u32) -> Result<Option<Visit>, Trouble>
        ensures found { IfOk result (λ visit. option_map visit_row visit
            ≡ visit_numbered number (tables_kept self.old.database).visits) }
        ensures same { tables_kept self.new.database ≡ tables_kept self.old.database }
        ensures memory { IfErr result IsWantOfMemory }
        ensures count { self.new.faults ≡ self.old.faults }
    {
        match self.open() {
            Ok(()) => match &mut self.database {
                Some(database) => database.find_visit(number),
                None => unreachable!(),
            },
            Err(trouble) => Err(trouble),
        }
    }

    fn ask_put_test(&mut self, visit: u32, point: &Label) -> Result<(), Trouble>
        ensures ok { OnOk result (PutsTest (test_of visit point.now)
            (tables_kept self.old.database) (tables_kept self.new.database)) }
        ensures err { OnErr result (tables_kept self.new.database ≡ tables_kept self.old.database) }
        ensures refused { IfErr result (RefusesTest (tables_kept self.old.database).tests) }
        ensures count { self.new.faults ≡ self.old.faults }
    {
        match self.open() {
            Ok(()) => match &mut self.database {
                Some(database) => database.put_test(visit, point),
                None => unreachable!(),
            },
            Err(trouble) => Err(trouble),
        }
    }

    fn ask_last_day(&mut self, point: &Label) -> Result<Option<u32>, Trouble>
        ensures day { IfOk result
            (λ day. day ≡ last_day_of point.now.bytes (tables_kept self.old.database)) }
        ensures same { tables_kept self.new.database ≡ tables_kept self.old.database }
        ensures memory { IfErr result IsWantOfMemory }
        ensures count { self.new.faults ≡ self.old.faults }
    {
        match self.open() {
            Ok(()) => match &mut self.database {
                Some(database) => database.last_day(point),
                None => unreachable!(),
            },
            Err(trouble) => Err(trouble),
        }
    }
}

impl Keeper for TableKeeper<MemStore> {
    ghost use Rattle.std.specs.Prelude.{◌≡◌, Some, IfOk, IfSome, OnErr, OnOk, option_map};
    ghost use Rattle.service_keepers.specs.Keeping.{PutsTest, PutsVisit};
    ghost use Rattle.service_keepers.specs.Rows.{test_of, visit_row};
    ghost use Rattle.service_keepers.specs.Tables.{last_day_of, visit_numbered};
    ghost use Rattle.register_sqlite.specs.Faults.{CountsFaults, IsWantOfMemory, RefusesTest};
    ghost use Rattle.register_sqlite.specs.Kept.{tables_kept, told_distinct};

    ghost tables = { λ k. Some (tables_kept k.database) };

    ghost faults = { λ k. k.faults };

    ghost distinct = { λ k kept told. told_distinct k.database kept told };

    fn put_visit(&mut self, visit: &Visit) -> Result<(), KeepFault>
        ensures ok { OnOk result (PutsVisit (visit_row visit.now)
            (tables_kept self.old.database) (tables_kept self.new.database)) }
        ensures err { OnErr result (tables_kept self.new.database ≡ tables_kept self.old.database) }
        ensures memory { IfSome self.new.trouble IsWantOfMemory }
        ensures counted { CountsFaults self.old.faults self.new.faults self.new.trouble result }
    {
        let answer = self.ask_put_visit(visit);
        settle(&mut self.faults, &mut self.trouble, answer)
    }

    fn find_visit(&mut self, number: u32) -> Result<Option<Visit>, KeepFault>
        ensures found { IfOk result (λ visit. option_map visit_row visit
            ≡ visit_numbered number (tables_kept self.old.database).visits) }
        ensures same { tables_kept self.new.database ≡ tables_kept self.old.database }
        ensures memory { IfSome self.new.trouble IsWantOfMemory }
        ensures counted { CountsFaults self.old.faults self.new.faults self.new.trouble result }
    {
        let answer = self.ask_find_visit(number);
        settle(&mut self.faults, &mut self.trouble, answer)
    }

    fn put_test(&mut self, visit: u32, point: &Label) -> Result<(), KeepFault>
        ensures ok { OnOk result (PutsTest (test_of visit point.now)
            (tables_kept self.old.database) (tables_kept self.new.database)) }
        ensures err { OnErr result (tables_kept self.new.database ≡ tables_kept self.old.database) }
        ensures refused { IfSome self.new.trouble
            (RefusesTest (tables_kept self.old.database).tests) }
        ensures counted { CountsFaults self.old.faults self.new.faults self.new.trouble result }
    {
        let answer = self.ask_put_test(visit, point);
        settle(&mut self.faults, &mut self.trouble, answer)
    }

    fn last_day(&mut self, point: &Label) -> Result<Option<u32>, KeepFault>
        ensures day { IfOk result
            (λ day. day ≡ last_day_of point.now.bytes (tables_kept self.old.database)) }
        ensures same { tables_kept self.new.database ≡ tables_kept self.old.database }
        ensures memory { IfSome self.new.trouble IsWantOfMemory }
        ensures counted { CountsFaults self.old.faults self.new.faults self.new.trouble result }
    {
        let answer = self.ask_last_day(point);
        settle(&mut self.faults, &mut self.trouble, answer)
    }
}
