ghost use Rattle.std.specs.Prelude.{◌≡◌, IfErr, IfOk, map};
ghost use Rattle.register_import.specs.Answers.{AnswersFile, Counts, HasImportCause};
ghost use Rattle.register_import.specs.Judged.{tables_of_rows};
ghost use Rattle.register_import.specs.Views.{row_view};
ghost use Rattle.register_import.specs.declared.refusal.ImportRefusal.TheVariants.{NoMemory};
ghost use Rattle.service_keepers.specs.MemoryRows.{tables_of};
ghost use Rattle.site_types.specs.Valid.{IsValid};

use crate::imported::Imported;
use crate::judged_rows::JudgedRows;
use crate::judging::judge_file;
use crate::putting::put_rows;
use crate::reading::records_of;
use crate::refusal::ImportRefusal;
use service_keepers::Keeper;
use site_types::Site;
use std::alloc::Global;

/// Puts the visits and tests of a file into a register's keeper, and answers how much the file has.
///
/// # Errors
///
/// `Row` exactly where a row is refused, with the first such row; then nothing changed. After `KeeperFault` or
/// `NoMemory` some first rows are put, and the same file completes it.
pub fn import_csv<R: Keeper>(
    alloc: Global,
    site: &Site,
    keeper: &mut R,
    bytes: &[u8],
) -> Result<Imported, ImportRefusal>
    requires { IsValid site.now }
    ensures answer { AnswersFile site.now bytes.now result (R.tables keeper.old)
        (R.tables keeper.new) }
    ensures cause { HasImportCause (R.faults keeper.old) (R.faults keeper.new) result }
{
    let records = records_of(alloc, bytes)?;
    let judged = judge_file(alloc, site, keeper, &records)?;
    let imported = counted(&judged)?;
    put_rows(keeper, &judged.rows)?;
    Ok(imported)
}

// How much the rows have. More than the numbers hold is more than memory holds.
fn counted(judged: &JudgedRows) -> Result<Imported, ImportRefusal>
    requires { tables_of judged.now.filled.tables
        ≡ tables_of_rows (map row_view judged.now.rows.items) }
    ensures ok { IfOk result (Counts (map row_view judged.now.rows.items)) }
    ensures err { IfErr result (λ refusal. refusal ≡ NoMemory) }
{
    let tables = &judged.filled.tables;
    match (
        u32::try_from(tables.visits.len()),
        u32::try_from(tables.tests.len()),
    ) {
        (Ok(visits), Ok(tests)) => Ok(Imported { visits, tests }),
        _ => Err(ImportRefusal::NoMemory),
    }
}
