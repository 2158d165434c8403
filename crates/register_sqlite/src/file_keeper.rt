//! The keeper over a database in a file.

use crate::answers::settle;
use crate::asking::{self, make_tables};
use crate::table_keeper::{DatabaseFile, TableKeeper};
use crate::trouble::Trouble;
use panel_edges::Label;
use service_keepers::{KeepFault, Keeper, Visit};
use sqlite::{Connection, File, FileStore};

impl TableKeeper<FileStore<File>> {
    ghost use Rattle.std.specs.Prelude.{◌≡◌, IsSome, OnOk};
    ghost use Rattle.service_keepers.specs.Rows.{test_of, visit_row};
    ghost use Rattle.sqlite.specs.Files.{file_state, over_files};
    ghost use Rattle.register_sqlite.specs.Asked.{LooksUp, LooksUpDays, RunsText};
    ghost use Rattle.register_sqlite.specs.Opened.{AsksWhere, OpensWhere};
    ghost use Rattle.register_sqlite.specs.Texts.{insert_test_text, insert_visit_text, test_params, visit_params};

    /// A keeper over the file of this path, which gets a database where there is no such file or an empty one.
    pub fn at(rt: HostRuntime, path: String) -> TableKeeper<FileStore<File>>
        ensures { result.faults ≡ 0 }
    {
        TableKeeper {
            place: DatabaseFile { rt, path },
            database: None,
            faults: 0,
            trouble: None,
        }
    }

    // Opens the database where it isn't open.
    fn open(&mut self) -> Result<(), Trouble>
        ensures open { OnOk result (IsSome self.new.database) }
        ensures opens { OpensWhere over_files self.old.database self.new.database result }
        ensures count { self.new.faults ≡ self.old.faults }
    {
        if self.database.is_some() {
            return Ok(());
        }
        let mut conn = match Connection::open(&self.place.rt, self.place.path.as_str()) {
            Ok(conn) => conn,
            Err(error) => return Err(Trouble::Opening(error)),
        };
        match make_tables(&mut conn) {
            Ok(()) => {
                self.database = Some(conn);
                Ok(())
            }
            Err(trouble) => Err(trouble),
        }
    }

    fn ask_put_visit(&mut self, visit: &Visit) -> Result<(), Trouble>
        ensures asks { AsksWhere over_files (λ old new answer. RunsText insert_visit_text
            (visit_params (visit_row visit.now)) (file_state old) (file_state new) answer)
            self.old.database self.new.database result }
        ensures count { self.new.faults ≡ self.old.faults }
    {
        match self.open() {
            Ok(()) => match &mut self.database {
                Some(conn) => asking::put_visit(conn, visit),
                None => unreachable!(),
            },
            Err(trouble) => Err(trouble),
        }
    }

    fn ask_find_visit(&mut self, number: u32) -> Result<Option<Visit>, Trouble>
        ensures asks { AsksWhere over_files (λ old new answer.
            LooksUp number (file_state old) (file_state new) answer)
            self.old.database self.new.database result }
        ensures count { self.new.faults ≡ self.old.faults }
    {
        match self.open() {
            Ok(()) => match &mut self.database {
                Some(conn) => asking::find_visit(conn, number),
                None => unreachable!(),
            },
            Err(trouble) => Err(trouble),
        }
    }

    fn ask_put_test(&mut self, visit: u32, point: &Label) -> Result<(), Trouble>
        ensures asks { AsksWhere over_files (λ old new answer. RunsText insert_test_text
            (test_params (test_of visit point.now)) (file_state old) (file_state new) answer)
            self.old.database self.new.database result }
        ensures count { self.new.faults ≡ self.old.faults }
    {
        match self.open() {
            Ok(()) => match &mut self.database {
                Some(conn) => asking::put_test(conn, visit, point),
                None => unreachable!(),
            },
            Err(trouble) => Err(trouble),
        }
    }

    fn ask_last_day(&mut self, point: &Label) -> Result<Option<u32>, Trouble>
        ensures asks { AsksWhere over_files (LooksUpDays over_files point.now.bytes)
            self.old.database self.new.database result }
        ensures count { self.new.faults ≡ self.old.faults }
    {
        match self.open() {
            Ok(()) => match &mut self.database {
                Some(conn) => asking::last_day(conn, point),
                None => unreachable!(),
            },
            Err(trouble) => Err(trouble),
        }
    }
}

impl Keeper for TableKeeper<FileStore<File>> {
    ghost use Rattle.std.specs.Prelude.{◌≡◌, None};
    ghost use Rattle.std.proofs.lemmas.Option.{none-some};
    ghost use Rattle.service_keepers.specs.Rows.{test_of, visit_row};
    ghost use Rattle.sqlite.specs.Files.{file_state, over_files};
    ghost use Rattle.register_sqlite.specs.Asked.{LooksUp, LooksUpDays, RunsText};
    ghost use Rattle.register_sqlite.specs.Faults.{CountsFaults};
    ghost use Rattle.register_sqlite.specs.Opened.{AsksAndTells};
    ghost use Rattle.register_sqlite.specs.Texts.{insert_test_text, insert_visit_text, test_params, visit_params};

    ghost tables = { λ k. None };

    ghost faults = { λ k. k.faults };

    ghost distinct = { λ k kept told. absurd (none-some kept told) };

    fn put_visit(&mut self, visit: &Visit) -> Result<(), KeepFault>
        ensures asked { AsksAndTells over_files (λ old new answer. RunsText insert_visit_text
            (visit_params (visit_row visit.now)) (file_state old) (file_state new) answer)
            self.old.database self.new.database self.new.trouble result }
        ensures counted { CountsFaults self.old.faults self.new.faults self.new.trouble result }
    {
        let answer = self.ask_put_visit(visit);
        settle(&mut self.faults, &mut self.trouble, answer)
    }

    fn find_visit(&mut self, number: u32) -> Result<Option<Visit>, KeepFault>
        ensures asked { AsksAndTells over_files (λ old new answer.
            LooksUp number (file_state old) (file_state new) answer)
            self.old.database self.new.database self.new.trouble result }
        ensures counted { CountsFaults self.old.faults self.new.faults self.new.trouble result }
    {
        let answer = self.ask_find_visit(number);
        settle(&mut self.faults, &mut self.trouble, answer)
    }

    fn put_test(&mut self, visit: u32, point: &Label) -> Result<(), KeepFault>
        ensures asked { AsksAndTells over_files (λ old new answer. RunsText insert_test_text
            (test_params (test_of visit point.now)) (file_state old) (file_state new) answer)
            self.old.database self.new.database self.new.trouble result }
        ensures counted { CountsFaults self.old.faults self.new.faults self.new.trouble result }
    {
        let answer = self.ask_put_test(visit, point);
        settle(&mut self.faults, &mut self.trouble, answer)
    }

    fn last_day(&mut self, point: &Label) -> Result<Option<u32>, KeepFault>
        ensures asked { AsksAndTells over_files (LooksUpDays over_files point.now.bytes)
            self.old.database self.new.database self.new.trouble result }
        ensures counted { CountsFaults self.old.faults self.new.faults self.new.trouble result }
    {
        let answer = self.ask_last_day(point);
        settle(&mut self.faults, &mut self.trouble, answer)
    }
}
