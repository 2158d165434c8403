//! Writing a cell, and making the changes of a batch.

ghost use Rattle.std.specs.Prelude.{◌≡◌, ◌⊎◌, ◌+◌, ◌*◌, ◌<◌, ◌≤◌, ℕ, Bool, None, [], ◌∷◌, length, slice_index};
ghost use mir.Val.{bool_byte};
ghost use Rattle.site_types.specs.Changes.{changed_by};
ghost use Rattle.retained_journal.specs.Batches.{CanKeep, CanKeepAll, CanMakeAll, IsBatch};
ghost use Rattle.retained_journal.specs.Cells.{cell_changes, change_at, changes_at, wrong_in_cell, wrong_in_change};
ghost use Rattle.retained_journal.specs.Fields.{number_at};
ghost use Rattle.retained_journal.specs.Places.{bytes_of_cell, most_changes};

use crate::fields::put;
use crate::layout::CELL_BYTES;
use byteorder::{BigEndian, ByteOrder};
use site_types::{Change, Retained};

/// The bytes of a cell and the gate of the cell after it.
pub(crate) const CELL_AND_GATE: usize = CELL_BYTES + 1;

// The cell that holds a number and a batch, and the gate of the cell after it; both gates are shut.
pub(crate) fn cell_bytes(number: u64, batch: &[Change]) -> [u8; CELL_AND_GATE]
    requires { length batch.now ≤ most_changes }
    ensures number { number_at 8 1 result ≡ number }
    ensures changes { cell_changes 0 result ≡ batch.now }
    ensures form { (wide : Bool) → IsBatch wide batch.now → wrong_in_cell wide 0 result ≡ None }
    ensures shut { slice_index result bytes_of_cell ≡ 0 }
{
    let mut bytes = [0; CELL_AND_GATE];
    let mut number_bytes = [0; 8];
    BigEndian::write_u64(&mut number_bytes, number);
    put(&mut bytes, 1, &number_bytes);
    put(&mut bytes, 9, &[batch.len() as u8]);
    put_changes(&mut bytes, batch);
    bytes
}

// Writes the changes of a batch.
fn put_changes(bytes: &mut [u8; CELL_AND_GATE], batch: &[Change])
    requires { length batch.now ≤ most_changes }
    ensures changes { changes_at (length batch.now) 10 bytes.new ≡ batch.now }
    ensures form { (wide : Bool) → CanKeepAll wide batch.now → (k : ℕ) → k < length batch.now →
        wrong_in_change wide (10 + 8 * k) bytes.new ≡ None }
    ensures outside { (i : ℕ) → (i < 10) ⊎ (10 + 8 * length batch.now ≤ i) →
        slice_index bytes.new i ≡ slice_index bytes.old i }
{
    for place in 0..batch.len() {
        put(bytes, 10 + 8 * place, &change_bytes(&batch[place]));
    }
}

// The bytes of a change.
fn change_bytes(change: &Change) -> [u8; 8]
    ensures reads { change_at 0 result ≡ change.now }
    ensures form { (wide : Bool) → CanKeep wide change.now → wrong_in_change wide 0 result ≡ None }
{
    match *change {
        Change::Point {
            panel,
            line,
            address,
            off,
        } => setting(1, panel, line, address, off),
        Change::Zone { panel, number, off } => setting(2, panel, 0, number, off),
        Change::Output { panel, number, off } => setting(3, panel, 0, number, off),
        Change::Delays { panel, off } => setting(4, panel, 0, 0, off),
        Change::Count { panel, entries } => counting(panel, entries),
        Change::Clear { panel } => setting(6, panel, 0, 0, false),
        Change::Test { panel, number, on } => setting(7, panel, 0, number, on),
    }
}

// The bytes of a change that sets or clears.
fn setting(kind: u8, panel: u8, line: u8, number: u8, on: bool) -> [u8; 8]
    ensures { result ≡ kind ∷ panel ∷ line ∷ number ∷ 0 ∷ 0 ∷ 0 ∷ bool_byte on ∷ [] }
{
    [kind, panel, line, number, 0, 0, 0, on as u8]
}

// The bytes of counted entries.
fn counting(panel: u8, entries: u32) -> [u8; 8]
    ensures front { (slice_index result 0 ≡ 5) × (slice_index result 1 ≡ panel)
        × (slice_index result 2 ≡ 0) × (slice_index result 3 ≡ 0) }
    ensures entries { number_at 4 4 result ≡ entries }
{
    let mut bytes = [5, panel, 0, 0, 0, 0, 0, 0];
    let mut entry_bytes = [0; 4];
    BigEndian::write_u32(&mut entry_bytes, entries);
    put(&mut bytes, 4, &entry_bytes);
    bytes
}

// Makes the changes of a batch.
pub(crate) fn make_changes(kept: &mut Retained, batch: &[Change])
    requires { CanMakeAll batch.now }
    ensures { kept.new ≡ changed_by batch.now kept.old }
{
    for change in batch {
        kept.apply(change);
    }
}
