//! Putting the rows of a file, none of which is refused.

ghost use Rattle.std.specs.Prelude.{IfErr, OnErr, OnOk, map};
ghost use Rattle.register_import.specs.Answers.{HasImportCause, IsFaultOrWant};
ghost use Rattle.register_import.specs.Puts.{PutsAtMost, PutsFront, PutsRow, PutsRows};
ghost use Rattle.register_import.specs.Views.{row_view};
ghost use Rattle.service_keepers.specs.Keeping.{ChangesBy};
ghost use Rattle.service_keepers.specs.Rows.{visit_row};

use crate::import_row::ImportRow;
use crate::refusal::ImportRefusal;
use service_keepers::Keeper;

// Puts rows, one behind the other.
pub(crate) fn put_rows<R: Keeper>(keeper: &mut R, rows: &[ImportRow]) -> Result<(), ImportRefusal>
    ensures ok { OnOk result (ChangesBy (PutsRows (map row_view rows.now))
        (R.tables keeper.old) (R.tables keeper.new)) }
    ensures err { OnErr result (ChangesBy (PutsFront (map row_view rows.now))
        (R.tables keeper.old) (R.tables keeper.new)) }
    ensures refusals { IfErr result IsFaultOrWant }
    ensures cause { HasImportCause (R.faults keeper.old) (R.faults keeper.new) result }
{
    for row in rows {
        put_row(keeper, row)?;
    }
    Ok(())
}

// Puts the visit and then the test of a row.
fn put_row<R: Keeper>(keeper: &mut R, row: &ImportRow) -> Result<(), ImportRefusal>
    ensures ok { OnOk result (ChangesBy (PutsRow (row_view row.now))
        (R.tables keeper.old) (R.tables keeper.new)) }
    ensures err { OnErr result (ChangesBy (PutsAtMost (visit_row row.now.visit))
        (R.tables keeper.old) (R.tables keeper.new)) }
    ensures refusals { IfErr result IsFaultOrWant }
    ensures cause { HasImportCause (R.faults keeper.old) (R.faults keeper.new) result }
{
    keeper.put_visit(&row.visit)?;
    keeper.put_test(row.visit.number, &row.point)?;
    Ok(())
}
