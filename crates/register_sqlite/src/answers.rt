//! What the database answers, as the keeper's caller gets it.

ghost use Rattle.std.specs.Prelude.{◌≡◌, ◌↔◌, ℕ, List, IfSome, option_map};
ghost use Rattle.service_keepers.specs.declared.visit.Visit.{Visit};
ghost use Rattle.sqlite.specs.Order.{column};
ghost use Rattle.register_sqlite.specs.Faults.{CountsFaults, IsWantOfMemory};
ghost use Rattle.register_sqlite.specs.Opened.{TellsAnswer};
ghost use Rattle.register_sqlite.specs.Days.{later_or};
ghost use Rattle.register_sqlite.specs.Values.{IsVisitLabel, IsVisitNumber};

use crate::trouble::Trouble;
use panel_edges::Label;
use service_keepers::{KeepFault, Visit};
use sqlite::types::ValueRef;
use sqlite::{Error, ErrorCode, Row};

// What the caller is told: want of memory, or else a fault.
pub(crate) fn fault_of(trouble: Trouble) -> KeepFault
    ensures { (result ≡ KeepFault.NoMemory) ↔ IsWantOfMemory trouble }
{
    match trouble {
        Trouble::Opening(Error::SqliteFailure(ErrorCode::OutOfMemory))
        | Trouble::Text(Error::SqliteFailure(ErrorCode::OutOfMemory)) => KeepFault::NoMemory,
        _ => KeepFault::Failed,
    }
}

// Keeps what a call met, counts it where it is a fault, and tells the caller.
pub(crate) fn settle<T: Drop>(
    faults: &mut u64,
    met: &mut Option<Trouble>,
    answer: Result<T, Trouble>,
) -> Result<T, KeepFault>
    ensures told { TellsAnswer answer met.new result }
    ensures counted { CountsFaults faults.old faults.new met.new result }
{
    match answer {
        Ok(value) => {
            *met = None;
            Ok(value)
        }
        Err(trouble) => {
            *met = Some(trouble);
            let fault = fault_of(trouble);
            if let KeepFault::Failed = fault {
                *faults = faults.saturating_add(1);
            }
            Err(fault)
        }
    }
}

// The number in a place of a row, or None where a number of 32 bits isn't there.
pub(crate) fn number_at(row: &Row, at: usize) -> Option<u32>
    ensures some { IfSome result (IsVisitNumber (column row.now at)) }
    ensures none { result ≡ None → (number : ℕ) → ¬ IsVisitNumber (column row.now at) number }
{
    match row.get_ref(at) {
        Ok(ValueRef::Int(number)) => match u32::try_from(number) {
            Ok(number) => Some(number),
            Err(_) => None,
        },
        _ => None,
    }
}

// The text in a place of a row, or None where a text that a label holds isn't there.
pub(crate) fn label_at(row: &Row, at: usize) -> Option<Label>
    ensures some { IfSome result (λ label. IsVisitLabel (column row.now at) label.bytes) }
    ensures none { result ≡ None → (text : List ℕ) → ¬ IsVisitLabel (column row.now at) text }
{
    match row.get_ref(at) {
        Ok(ValueRef::Text(bytes)) => match str::from_utf8(bytes) {
            Ok(text) => match Label::from(text) {
                Ok(label) => Some(label),
                Err(_) => None,
            },
            Err(_) => None,
        },
        _ => None,
    }
}

// The visit of a number whose day and engineer a row has, or None where a visit can't hold them.
pub(crate) fn visit_of(number: u32, row: &Row) -> Option<Visit>
    ensures some { IfSome result (λ visit. (visit.number ≡ number)
        × IsVisitNumber (column row.now 0) visit.day
        × IsVisitLabel (column row.now 1) visit.engineer.bytes) }
    ensures none { result ≡ None → (day : ℕ) (engineer : List ℕ)
        → IsVisitNumber (column row.now 0) day → ¬ IsVisitLabel (column row.now 1) engineer }
{
    Some(Visit {
        number,
        day: number_at(row, 0)?,
        engineer: label_at(row, 1)?,
    })
}

// The day of a visit, where there is one.
pub(crate) fn day_of(visit: Option<Visit>) -> Option<u32>
    ensures { result ≡ option_map (λ (visit : Visit). visit.day) visit }
{
    match visit {
        Some(visit) => Some(visit.day),
        None => None,
    }
}

// The later of two days, of which either may be missing.
pub(crate) fn later(last: Option<u32>, day: Option<u32>) -> Option<u32>
    ensures { result ≡ later_or last day }
{
    match (last, day) {
        (Some(last), Some(day)) => Some(last.max(day)),
        (None, Some(day)) => Some(day),
        (last, None) => last,
    }
}
