use crate::import_row::ImportRow;
use crate::refusal::ImportRefusal;
use service_keepers::{Keeper, SoundMemoryKeeper};
use std::alloc::Global;

/// Rows that were judged and not refused, and the tables that they fill.
#[derive(Drop)]
pub(crate) struct JudgedRows {
    pub(crate) rows: Vec<ImportRow>,
    pub(crate) filled: SoundMemoryKeeper,
}

impl JudgedRows {
    ghost use Rattle.std.specs.Prelude.{◌≡◌, ◌++◌, ◌∷◌, [], IfErr, IfOk, OnOk};
    ghost use Rattle.register_import.specs.Judged.{with_row};
    ghost use Rattle.register_import.specs.Views.{row_view};
    ghost use Rattle.register_import.specs.declared.refusal.ImportRefusal.TheVariants.{NoMemory};
    ghost use Rattle.service_keepers.specs.MemoryRows.{tables_of};
    ghost use Rattle.service_keepers.specs.Tables.{no_tables};

    // No row yet.
    pub(crate) fn new(alloc: Global) -> Result<JudgedRows, ImportRefusal>
        ensures rows { IfOk result (λ judged. judged.rows.items ≡ []) }
        ensures filled { IfOk result (λ judged. tables_of judged.filled.tables ≡ no_tables) }
        ensures err { IfErr result (λ refusal. refusal ≡ NoMemory) }
    {
        match SoundMemoryKeeper::new(alloc) {
            Ok(filled) => Ok(JudgedRows {
                rows: Vec::new(alloc),
                filled,
            }),
            Err(_) => Err(ImportRefusal::NoMemory),
        }
    }

    // Adds a row.
    pub(crate) fn push(&mut self, row: &ImportRow) -> Result<(), ImportRefusal>
        ensures rows { OnOk result (self.new.rows.items ≡ self.old.rows.items ++ row.now ∷ []) }
        ensures filled { OnOk result (tables_of self.new.filled.tables
            ≡ with_row (tables_of self.old.filled.tables) (row_view row.now)) }
        ensures err { IfErr result (λ refusal. refusal ≡ NoMemory) }
    {
        self.filled.put_visit(&row.visit)?;
        self.filled.put_test(row.visit.number, &row.point)?;
        match self.rows.push(*row) {
            Ok(()) => Ok(()),
            Err(_) => Err(ImportRefusal::NoMemory),
        }
    }
}
