//! The texts that the keeper has, each with the one call of the database that runs it. Where the database is as it
//! was written, as in memory always, a call makes of it what the text says.

ghost use Rattle.std.specs.Prelude.{[], IfErr, IfOk};
ghost use Rattle.service_keepers.specs.Rows.{test_of};
ghost use Rattle.sqlite.specs.Held.{state};
ghost use Rattle.sqlite.specs.State.{Executes, FailsToQuery, HasCleanDisk, Shown};
ghost use Rattle.register_sqlite.specs.Stored.{ComesAfter};
ghost use Rattle.register_sqlite.specs.Texts.{create_tests_text, create_visits_text};
ghost use Rattle.register_sqlite.specs.Texts.{insert_test_text, insert_visit_text};
ghost use Rattle.register_sqlite.specs.Texts.{number_params, point_params, select_tests_text, select_visit_text};
ghost use Rattle.register_sqlite.specs.Texts.{test_params, visit_params};
ghost use Rattle.register_sqlite.specs.Values.{IsTestRow, IsVisitRow, visit_by};

use panel_edges::Label;
use sqlite::{Alter, Connection, Error, Row, params};

pub(crate) fn create_visits<S: Alter>(conn: &mut Connection<S>) -> Result<usize, Error>
    ensures runs { HasCleanDisk (state S.Store conn.new)
        → Executes create_visits_text [] (state S.Store conn.old) (state S.Store conn.new) result }
    ensures follows { ComesAfter (state S.Store conn.old) (state S.Store conn.new) }
{
    conn.execute(
        "CREATE TABLE IF NOT EXISTS visits(number INTEGER PRIMARY KEY, day INTEGER NOT NULL, engineer TEXT NOT NULL) STRICT",
        &[],
    )
}

pub(crate) fn create_tests<S: Alter>(conn: &mut Connection<S>) -> Result<usize, Error>
    ensures runs { HasCleanDisk (state S.Store conn.new)
        → Executes create_tests_text [] (state S.Store conn.old) (state S.Store conn.new) result }
    ensures follows { ComesAfter (state S.Store conn.old) (state S.Store conn.new) }
{
    conn.execute(
        "CREATE TABLE IF NOT EXISTS tests(visit INTEGER NOT NULL, point TEXT NOT NULL, PRIMARY KEY(visit, point)) STRICT",
        &[],
    )
}

pub(crate) fn insert_visit<S: Alter>(
    conn: &mut Connection<S>,
    number: u32,
    day: u32,
    engineer: &Label,
) -> Result<usize, Error>
    ensures runs { HasCleanDisk (state S.Store conn.new)
        → Executes insert_visit_text (visit_params (visit_by number day engineer.now))
        (state S.Store conn.old) (state S.Store conn.new) result }
    ensures of_visit { IsVisitRow (visit_by number day engineer.now) }
    ensures follows { ComesAfter (state S.Store conn.old) (state S.Store conn.new) }
{
    conn.execute(
        "INSERT INTO visits(number, day, engineer) VALUES(?1, ?2, ?3) ON CONFLICT DO NOTHING",
        params![number, day, engineer.as_str()],
    )
}

pub(crate) fn select_visit<S: Alter>(
    conn: &mut Connection<S>,
    number: u32,
) -> Result<Vec<Row>, Error>
    ensures ok { HasCleanDisk (state S.Store conn.new) → IfOk result (λ rows.
        Shown select_visit_text (number_params number)
        (state S.Store conn.old) (state S.Store conn.new) rows.items) }
    ensures err { HasCleanDisk (state S.Store conn.new) → IfErr result
        (FailsToQuery select_visit_text (number_params number)
        (state S.Store conn.old) (state S.Store conn.new)) }
    ensures follows { ComesAfter (state S.Store conn.old) (state S.Store conn.new) }
{
    conn.query_all(
        "SELECT day, engineer FROM visits WHERE number = ?1",
        params![number],
    )
}

pub(crate) fn insert_test<S: Alter>(
    conn: &mut Connection<S>,
    visit: u32,
    point: &Label,
) -> Result<usize, Error>
    ensures runs { HasCleanDisk (state S.Store conn.new)
        → Executes insert_test_text (test_params (test_of visit point.now))
        (state S.Store conn.old) (state S.Store conn.new) result }
    ensures of_test { IsTestRow (test_of visit point.now) }
    ensures follows { ComesAfter (state S.Store conn.old) (state S.Store conn.new) }
{
    conn.execute(
        "INSERT INTO tests(visit, point) VALUES(?1, ?2) ON CONFLICT DO NOTHING",
        params![visit, point.as_str()],
    )
}

pub(crate) fn select_tests<S: Alter>(
    conn: &mut Connection<S>,
    point: &Label,
) -> Result<Vec<Row>, Error>
    ensures ok { HasCleanDisk (state S.Store conn.new) → IfOk result (λ rows.
        Shown select_tests_text (point_params point.now.bytes)
        (state S.Store conn.old) (state S.Store conn.new) rows.items) }
    ensures err { HasCleanDisk (state S.Store conn.new) → IfErr result
        (FailsToQuery select_tests_text (point_params point.now.bytes)
        (state S.Store conn.old) (state S.Store conn.new)) }
    ensures follows { ComesAfter (state S.Store conn.old) (state S.Store conn.new) }
{
    conn.query_all(
        "SELECT visit FROM tests WHERE point = ?1 ORDER BY visit",
        params![point.as_str()],
    )
}
