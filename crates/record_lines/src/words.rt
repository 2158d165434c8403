//! The fixed words of lines.

ghost use Rattle.std.specs.Prelude.{◌≡◌};
ghost use Rattle.record_lines.specs.Words.{kind_of, is_bad_of, is_up_of, piece_state_of, point_state_of};
ghost use Rattle.record_lines.specs.Words.{supply_kind_of, task_of};

use crate::form::Kind;
use line_fields::is_word;
use site_types::{PieceState, PointState, SupplyKind};
use tick_units::Task;
use tick_units::Task::{Decide, Desk, Drive, Effect, Hold, Keep, Link, Poll, Supply};

pub fn point_state(word: &[u8]) -> Option<PointState>
    ensures { result ≡ point_state_of word.now }
{
    if is_word(word, b"quiet") {
        Some(PointState::Quiet)
    } else if is_word(word, b"alarm") {
        Some(PointState::Alarm)
    } else if is_word(word, b"gone") {
        Some(PointState::Gone)
    } else {
        None
    }
}

pub fn piece_state(word: &[u8]) -> Option<PieceState>
    ensures { result ≡ piece_state_of word.now }
{
    if is_word(word, b"sound") {
        Some(PieceState::Sound)
    } else if is_word(word, b"open") {
        Some(PieceState::Open)
    } else if is_word(word, b"short") {
        Some(PieceState::Short)
    } else {
        None
    }
}

pub fn supply_kind(word: &[u8]) -> Option<SupplyKind>
    ensures { result ≡ supply_kind_of word.now }
{
    if is_word(word, b"mains") {
        Some(SupplyKind::Mains)
    } else if is_word(word, b"standby") {
        Some(SupplyKind::Standby)
    } else if is_word(word, b"voltage") {
        Some(SupplyKind::Voltage)
    } else if is_word(word, b"charger") {
        Some(SupplyKind::Charger)
    } else {
        None
    }
}

pub fn is_bad(word: &[u8]) -> Option<bool>
    ensures { result ≡ is_bad_of word.now }
{
    if is_word(word, b"ok") {
        Some(false)
    } else if is_word(word, b"bad") {
        Some(true)
    } else {
        None
    }
}

pub fn is_up(word: &[u8]) -> Option<bool>
    ensures { result ≡ is_up_of word.now }
{
    if is_word(word, b"up") {
        Some(true)
    } else if is_word(word, b"down") {
        Some(false)
    } else {
        None
    }
}

pub fn item_kind(word: &[u8]) -> Option<Kind>
    ensures { result ≡ kind_of word.now }
{
    if is_word(word, b"point") {
        Some(Kind::Point)
    } else if is_word(word, b"zone") {
        Some(Kind::Zone)
    } else if is_word(word, b"output") {
        Some(Kind::Output)
    } else {
        None
    }
}

// The tasks by their letters. Keep stands where no letter of a panel's task is.
static TASKS: [Task; 256] = [
    Keep, Keep, Keep, Keep, Keep, Keep, Keep, Keep, Keep, Keep, Keep, Keep, Keep, Keep, Keep, Keep,
    Keep, Keep, Keep, Keep, Keep, Keep, Keep, Keep, Keep, Keep, Keep, Keep, Keep, Keep, Keep, Keep,
    Keep, Keep, Keep, Keep, Keep, Keep, Keep, Keep, Keep, Keep, Keep, Keep, Keep, Keep, Keep, Keep,
    Keep, Keep, Keep, Keep, Keep, Keep, Keep, Keep, Keep, Keep, Keep, Keep, Keep, Keep, Keep, Keep,
    Keep, Keep, Keep, Keep, Keep, Keep, Keep, Keep, Keep, Keep, Keep, Keep, Keep, Keep, Keep, Keep,
    Keep, Keep, Keep, Keep, Keep, Keep, Keep, Keep, Keep, Keep, Keep, Keep, Keep, Keep, Keep, Keep,
    Keep, Keep, Keep, Keep, Decide, Effect, Keep, Keep, Hold, Keep, Keep, Keep, Link, Keep, Keep,
    Desk, Poll, Keep, Drive, Supply, Keep, Keep, Keep, Keep, Keep, Keep, Keep, Keep, Keep, Keep,
    Keep, Keep, Keep, Keep, Keep, Keep, Keep, Keep, Keep, Keep, Keep, Keep, Keep, Keep, Keep, Keep,
    Keep, Keep, Keep, Keep, Keep, Keep, Keep, Keep, Keep, Keep, Keep, Keep, Keep, Keep, Keep, Keep,
    Keep, Keep, Keep, Keep, Keep, Keep, Keep, Keep, Keep, Keep, Keep, Keep, Keep, Keep, Keep, Keep,
    Keep, Keep, Keep, Keep, Keep, Keep, Keep, Keep, Keep, Keep, Keep, Keep, Keep, Keep, Keep, Keep,
    Keep, Keep, Keep, Keep, Keep, Keep, Keep, Keep, Keep, Keep, Keep, Keep, Keep, Keep, Keep, Keep,
    Keep, Keep, Keep, Keep, Keep, Keep, Keep, Keep, Keep, Keep, Keep, Keep, Keep, Keep, Keep, Keep,
    Keep, Keep, Keep, Keep, Keep, Keep, Keep, Keep, Keep, Keep, Keep, Keep, Keep, Keep, Keep, Keep,
    Keep, Keep, Keep, Keep, Keep, Keep, Keep, Keep, Keep, Keep, Keep, Keep, Keep, Keep, Keep, Keep,
    Keep, Keep,
];

/// The task that a seat's letter stands for. A panel's number follows each letter but that of Keep.
pub fn task(letter: u8) -> Option<Task>
    ensures { result ≡ task_of letter }
{
    match TASKS[letter as usize] {
        Keep => None,
        task => Some(task),
    }
}
