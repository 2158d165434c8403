//! The calls of a keeper over an open database: what they tell is what their texts were answered. And what they make
//! of a database that is a register, in a store that never fails.

ghost use Rattle.std.specs.Prelude.{◌≡◌, IfErr, OnOk, option_map};
ghost use Rattle.service_keepers.specs.Keeping.{PutsTest, PutsVisit};
ghost use Rattle.service_keepers.specs.Rows.{test_of, visit_row};
ghost use Rattle.service_keepers.specs.Tables.{last_day_of, visit_numbered};
ghost use Rattle.sqlite.specs.Held.{state};
ghost use Rattle.sqlite.specs.State.{HasCleanDisk};
ghost use Rattle.register_sqlite.specs.Asked.{HasNumber, LooksUp, LooksUpDay, LooksUpDays, MakesTables, RunsText};
ghost use Rattle.register_sqlite.specs.Days.{day_shown};
ghost use Rattle.register_sqlite.specs.Faults.{IsWantOfMemory, RefusesTest};
ghost use Rattle.register_sqlite.specs.Stored.{AnswersOf, Changes, ComesAfter, IsEmptyRegister};
ghost use Rattle.register_sqlite.specs.Stored.{IsNoDatabase, IsRegister, IsSteady};
ghost use Rattle.register_sqlite.specs.Texts.{insert_test_text, insert_visit_text, test_params, visit_params};

use crate::answers::{day_of, later, number_at, visit_of};
use crate::statements::{
    create_tests, create_visits, insert_test, insert_visit, select_tests, select_visit,
};
use crate::trouble::Trouble;
use panel_edges::Label;
use service_keepers::Visit;
use sqlite::{Alter, Connection, Row};

// Makes the two tables where they aren't there.
pub(crate) fn make_tables<S: Alter>(conn: &mut Connection<S>) -> Result<(), Trouble>
    ensures made { IsSteady S.Store → IsNoDatabase (state S.Store conn.old)
        → OnOk result (IsEmptyRegister (state S.Store conn.new)) }
    ensures memory { IsSteady S.Store → IsNoDatabase (state S.Store conn.old)
        → IfErr result IsWantOfMemory }
    ensures asked { HasCleanDisk (state S.Store conn.new)
        → MakesTables S.Store conn.old conn.new result }
    ensures follows { ComesAfter (state S.Store conn.old) (state S.Store conn.new) }
{
    match create_visits(conn) {
        Ok(_) => match create_tests(conn) {
            Ok(_) => Ok(()),
            Err(error) => Err(Trouble::Text(error)),
        },
        Err(error) => Err(Trouble::Text(error)),
    }
}

pub(crate) fn put_visit<S: Alter>(conn: &mut Connection<S>, visit: &Visit) -> Result<(), Trouble>
    ensures register { IsSteady S.Store → IsRegister (state S.Store conn.old)
        → Changes (PutsVisit (visit_row visit.now)) (λ kept. IsWantOfMemory)
        (state S.Store conn.old) (state S.Store conn.new) result }
    ensures asked { HasCleanDisk (state S.Store conn.new)
        → RunsText insert_visit_text (visit_params (visit_row visit.now))
        (state S.Store conn.old) (state S.Store conn.new) result }
    ensures follows { ComesAfter (state S.Store conn.old) (state S.Store conn.new) }
{
    match insert_visit(conn, visit.number, visit.day, &visit.engineer) {
        Ok(_) => Ok(()),
        Err(error) => Err(Trouble::Text(error)),
    }
}

pub(crate) fn find_visit<S: Alter>(
    conn: &mut Connection<S>,
    number: u32,
) -> Result<Option<Visit>, Trouble>
    ensures register { IsSteady S.Store → IsRegister (state S.Store conn.old)
        → AnswersOf (λ visit kept. option_map visit_row visit ≡ visit_numbered number kept.visits)
        (state S.Store conn.old) (state S.Store conn.new) result }
    ensures asked { HasCleanDisk (state S.Store conn.new)
        → LooksUp number (state S.Store conn.old) (state S.Store conn.new) result }
    ensures follows { ComesAfter (state S.Store conn.old) (state S.Store conn.new) }
{
    match select_visit(conn, number) {
        Ok(rows) => match rows.first() {
            Some(row) => match visit_of(number, row) {
                Some(visit) => Ok(Some(visit)),
                None => Err(Trouble::Value),
            },
            None => Ok(None),
        },
        Err(error) => Err(Trouble::Text(error)),
    }
}

pub(crate) fn put_test<S: Alter>(
    conn: &mut Connection<S>,
    visit: u32,
    point: &Label,
) -> Result<(), Trouble>
    ensures register { IsSteady S.Store → IsRegister (state S.Store conn.old)
        → Changes (PutsTest (test_of visit point.now)) (λ kept. RefusesTest kept.tests)
        (state S.Store conn.old) (state S.Store conn.new) result }
    ensures asked { HasCleanDisk (state S.Store conn.new)
        → RunsText insert_test_text (test_params (test_of visit point.now))
        (state S.Store conn.old) (state S.Store conn.new) result }
    ensures follows { ComesAfter (state S.Store conn.old) (state S.Store conn.new) }
{
    match insert_test(conn, visit, point) {
        Ok(_) => Ok(()),
        Err(error) => Err(Trouble::Text(error)),
    }
}

// The day of the visit whose number a row has, where that visit is kept.
fn day_of_row<S: Alter>(conn: &mut Connection<S>, row: &Row) -> Result<Option<u32>, Trouble>
    ensures register { IsSteady S.Store → IsRegister (state S.Store conn.old) → HasNumber row.now
        → AnswersOf (λ day kept. day ≡ day_shown kept.visits row.now)
        (state S.Store conn.old) (state S.Store conn.new) result }
    ensures asked { HasCleanDisk (state S.Store conn.new)
        → LooksUpDay S.Store row.now conn.old conn.new result }
    ensures follows { ComesAfter (state S.Store conn.old) (state S.Store conn.new) }
{
    match number_at(row, 0) {
        Some(number) => match find_visit(conn, number) {
            Ok(visit) => Ok(day_of(visit)),
            Err(trouble) => Err(trouble),
        },
        None => return Err(Trouble::Value),
    }
}

pub(crate) fn last_day<S: Alter>(
    conn: &mut Connection<S>,
    point: &Label,
) -> Result<Option<u32>, Trouble>
    ensures register { IsSteady S.Store → IsRegister (state S.Store conn.old)
        → AnswersOf (λ day kept. day ≡ last_day_of point.now.bytes kept)
        (state S.Store conn.old) (state S.Store conn.new) result }
    ensures asked { HasCleanDisk (state S.Store conn.new)
        → LooksUpDays S.Store point.now.bytes conn.old conn.new result }
    ensures follows { ComesAfter (state S.Store conn.old) (state S.Store conn.new) }
{
    let rows = match select_tests(conn, point) {
        Ok(rows) => rows,
        Err(error) => return Err(Trouble::Text(error)),
    };
    let mut last = None;
    for row in &rows {
        match day_of_row(conn, row) {
            Ok(day) => last = later(last, day),
            Err(trouble) => return Err(trouble),
        }
    }
    Ok(last)
}
