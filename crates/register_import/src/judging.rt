//! Checking the rows of a file, before anything is put.

ghost use Rattle.std.specs.Prelude.{◌≡◌, ◌+◌, ◌<◌, ◌^◌, Err, IfErr, IfOk, IfSome, Ok, map};
ghost use Rattle.csv.specs.Records.{fields_of};
ghost use Rattle.register_import.specs.Answers.{HasImportCause};
ghost use Rattle.register_import.specs.Judged.{differs, file_judged, judged_by, rows_judged, tables_of_rows};
ghost use Rattle.register_import.specs.Refused.{RefusesFile, RefusesRow};
ghost use Rattle.register_import.specs.Rows.{four, is_header as has_header, row_spelled};
ghost use Rattle.register_import.specs.Views.{row_view};
ghost use Rattle.service_keepers.specs.MemoryRows.{tables_of};
ghost use Rattle.service_keepers.specs.Rows.{visit_row};
ghost use Rattle.site_types.specs.Valid.{IsValid};

use crate::four_fields::FourFields;
use crate::import_row::{BAD_FORM, ImportRow, OTHER_VISIT};
use crate::judged_rows::JudgedRows;
use crate::refusal::ImportRefusal;
use csv::ByteRecord;
use service_keepers::{Keeper, SoundMemoryKeeper, Visit};
use site_types::Site;
use std::alloc::Global;

// The rows of a file in which none is refused, or the first that is.
pub(crate) fn judge_file<R: Keeper>(
    alloc: Global,
    site: &Site,
    keeper: &mut R,
    records: &[ByteRecord],
) -> Result<JudgedRows, ImportRefusal>
    requires { IsValid site.now }
    ensures ok { IfOk result (λ judged. IfSome (R.tables keeper.old)
        (λ kept. file_judged site.now kept (map fields_of records.now)
        ≡ Ok (map row_view judged.rows.items))) }
    ensures filled { IfOk result (λ judged. tables_of judged.filled.tables
        ≡ tables_of_rows (map row_view judged.rows.items)) }
    ensures err { IfErr result (λ refusal. IfSome (R.tables keeper.old)
        (λ kept. RefusesFile (file_judged site.now kept (map fields_of records.now)) refusal)) }
    ensures same { R.tables keeper.new ≡ R.tables keeper.old }
    ensures cause { HasImportCause (R.faults keeper.old) (R.faults keeper.new) result }
{
    match records {
        [header, rows @ ..] if is_header(header) => judge_rows(alloc, site, keeper, rows),
        _ => Err(ImportRefusal::Row {
            row: 0,
            why: BAD_FORM,
        }),
    }
}

// Whether a record is the header.
fn is_header(line: &ByteRecord) -> bool
    ensures { result ≡ has_header (four (fields_of line.now)) }
{
    match FourFields::of(line) {
        Some(fields) => fields.are(b"visit", b"day", b"engineer", b"point"),
        None => false,
    }
}

// The rows below the header, of which the first is row 1.
fn judge_rows<R: Keeper>(
    alloc: Global,
    site: &Site,
    keeper: &mut R,
    rows: &[ByteRecord],
) -> Result<JudgedRows, ImportRefusal>
    requires { IsValid site.now }
    ensures ok { IfOk result (λ judged. IfSome (R.tables keeper.old)
        (λ kept. rows_judged site.now kept [] 1 (map fields_of rows.now)
        ≡ Ok (map row_view judged.rows.items))) }
    ensures filled { IfOk result (λ judged. tables_of judged.filled.tables
        ≡ tables_of_rows (map row_view judged.rows.items)) }
    ensures err { IfErr result (λ refusal. IfSome (R.tables keeper.old)
        (λ kept. RefusesFile (rows_judged site.now kept [] 1 (map fields_of rows.now))
        refusal)) }
    ensures same { R.tables keeper.new ≡ R.tables keeper.old }
    ensures cause { HasImportCause (R.faults keeper.old) (R.faults keeper.new) result }
{
    let mut judged = JudgedRows::new(alloc)?;
    for (place, line) in rows.iter().enumerate() {
        let row = judge_row(site, keeper, &mut judged.filled, line, place as u64 + 1)?;
        judged.push(&row)?;
    }
    Ok(judged)
}

// The row that a record spells, or why it is refused, by the rows before it and by what is kept.
fn judge_row<R: Keeper>(
    site: &Site,
    keeper: &mut R,
    before: &mut SoundMemoryKeeper,
    line: &ByteRecord,
    number: u64,
) -> Result<ImportRow, ImportRefusal>
    requires { IsValid site.now }
    ensures ok { IfOk result (λ row. IfSome (R.tables keeper.old)
        (λ kept. judged_by kept (tables_of before.old.tables)
        (row_spelled site.now (four (fields_of line.now))) ≡ Ok (row_view row))) }
    ensures err { IfErr result (λ refusal. IfSome (R.tables keeper.old)
        (λ kept. RefusesRow number (judged_by kept (tables_of before.old.tables)
        (row_spelled site.now (four (fields_of line.now)))) refusal)) }
    ensures same { R.tables keeper.new ≡ R.tables keeper.old }
    ensures before { tables_of before.new.tables ≡ tables_of before.old.tables }
    ensures cause { HasImportCause (R.faults keeper.old) (R.faults keeper.new) result }
{
    match ImportRow::read(site, line) {
        Ok(row) => {
            if differs(&row.visit, before.find_visit(row.visit.number)?)
                || differs(&row.visit, keeper.find_visit(row.visit.number)?)
            {
                return Err(ImportRefusal::Row {
                    row: number,
                    why: OTHER_VISIT,
                });
            }
            Ok(row)
        }
        Err(why) => Err(ImportRefusal::Row { row: number, why }),
    }
}

ghost use Rattle.std.specs.Prelude.{[], option_map};

// Whether another visit was found.
fn differs(visit: &Visit, found: Option<Visit>) -> bool
    ensures { result ≡ differs (visit_row visit.now) (option_map visit_row found) }
{
    match found {
        Some(other) => other != *visit,
        None => false,
    }
}
