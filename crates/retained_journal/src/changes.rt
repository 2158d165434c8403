//! Reading the changes of a cell.

ghost use Rattle.std.specs.Prelude.{◌≡◌, ◌+◌, ◌*◌, ◌≤◌, ◌<◌, length, slice_index, None, Some, IfSome};
ghost use Rattle.site_types.specs.Changes.{changed_by};
ghost use Rattle.retained_journal.specs.Cells.{cell_changes, cell_count, change_at as change_in};
ghost use Rattle.retained_journal.specs.Cells.{is_in_form as in_form, is_line as line_in_form};
ghost use Rattle.retained_journal.specs.Cells.{is_number as number_in_form, is_value as value_in_form};
ghost use Rattle.retained_journal.specs.Cells.{wrong_in_change as wrong_byte, wrong_in_cell as wrong_byte_of_cell};
ghost use Rattle.retained_journal.specs.Places.{bytes_of_cell};

use crate::fields::{is_within, short_number_at};
use crate::layout::MOST_CHANGES;
use site_types::{Change, Retained};

// Whether a byte is in the form of a change of a kind, at one of its eight places.
#[tactic(auto, unfolding(crate::specs::Cells::is_in_form))]
fn is_in_form(wide: bool, kind: u8, place: usize, byte: u8) -> bool
    ensures { result ≡ in_form wide kind place byte }
{
    match place {
        0 => is_within(1, 7, byte),
        1 => is_within(1, 8, byte),
        2 => is_line(kind, byte),
        3 => is_number(wide, kind, byte),
        _ => is_value(kind, place, byte),
    }
}

// Whether a byte is the loop of a change of a kind.
fn is_line(kind: u8, byte: u8) -> bool
    ensures { result ≡ line_in_form kind byte }
{
    match kind {
        1 => is_within(1, 4, byte),
        _ => byte == 0,
    }
}

// Whether a byte is the address or the number of a change of a kind.
fn is_number(wide: bool, kind: u8, byte: u8) -> bool
    ensures { result ≡ number_in_form wide kind byte }
{
    match kind {
        1 => is_within(1, if wide { 192 } else { 96 }, byte),
        2 | 3 | 7 => is_within(1, 32, byte),
        _ => byte == 0,
    }
}

// Whether a byte may stand among the last four of a change of a kind.
fn is_value(kind: u8, place: usize, byte: u8) -> bool
    ensures { result ≡ value_in_form kind place byte }
{
    match kind {
        5 => true,
        6 => byte == 0,
        _ => byte <= (if place == 7 { 1 } else { 0 }),
    }
}

// The place of the first byte out of its form in the change that stands at a place.
fn wrong_in_change(wide: bool, at: usize, bytes: &[u8]) -> Option<usize>
    requires { at + 8 ≤ length bytes.now }
    ensures value { result ≡ wrong_byte wide at bytes.now }
    ensures bound { IfSome result (λ place. place < at + 8) }
{
    for place in 0..8 {
        if !is_in_form(wide, bytes[at], place, bytes[at + place]) {
            return Some(at + place);
        }
    }
    None
}

// The place of the first byte of a cell that is out of its form.
pub(crate) fn wrong_in_cell(wide: bool, cell: &[u8]) -> Option<usize>
    requires { length cell.now ≡ bytes_of_cell }
    ensures value { result ≡ wrong_byte_of_cell wide 0 cell.now }
    ensures bound { IfSome result (λ place. place < bytes_of_cell) }
{
    let count = cell[9];
    if !is_within(1, MOST_CHANGES, count) {
        return Some(9);
    }
    for which in 0..count as usize {
        let wrong = wrong_in_change(wide, 10 + 8 * which, cell);
        if wrong.is_some() {
            return wrong;
        }
    }
    None
}

// Makes the changes of a cell that is in its form.
pub(crate) fn apply_changes(kept: &mut Retained, wide: bool, cell: &[u8])
    requires size { length cell.now ≡ bytes_of_cell }
    requires form { wrong_byte_of_cell wide 0 cell.now ≡ None }
    ensures { kept.new ≡ changed_by (cell_changes 0 cell.now) kept.old }
{
    for which in 0..cell[9] as usize {
        kept.apply(&change_at(10 + 8 * which, cell));
    }
}

// The change that stands at a place.
#[tactic(auto, unfolding(crate::specs::Cells::change_at))]
fn change_at(at: usize, bytes: &[u8]) -> Change
    requires { at + 8 ≤ length bytes.now }
    ensures { result ≡ change_in at bytes.now }
{
    let panel = bytes[at + 1];
    let number = bytes[at + 3];
    let on = bytes[at + 7] == 1;
    match bytes[at] {
        1 => Change::Point {
            panel,
            line: bytes[at + 2],
            address: number,
            off: on,
        },
        2 => Change::Zone {
            panel,
            number,
            off: on,
        },
        3 => Change::Output {
            panel,
            number,
            off: on,
        },
        4 => Change::Delays { panel, off: on },
        5 => Change::Count {
            panel,
            entries: short_number_at(bytes, at + 4),
        },
        6 => Change::Clear { panel },
        _ => Change::Test { panel, number, on },
    }
}
