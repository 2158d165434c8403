//! Refusals with the key at which something was found; want of memory in their place where memory runs out.

ghost use Rattle.std.specs.Prelude.{Some};
ghost use Rattle.site_document.specs.Refusals.{IsSaid, missing as is_missing, out_of_range as is_out_of_range};
ghost use Rattle.site_document.specs.Refusals.{unknown as is_unknown, wrong_kind as is_wrong_kind};
ghost use Rattle.site_document.specs.Texts.{item_text, key_text, key_word, row_text};

use crate::key::Key;
use crate::place::Place;
use crate::refusal::SiteRefusal;
use std::alloc::Global;

/// The key is absent.
pub fn missing(alloc: Global, place: &Place, key: Key) -> SiteRefusal
    ensures { IsSaid result (Some (is_missing (key_text place.now (key_word key)))) }
{
    match place.key_text(alloc, key.word()) {
        Ok(text) => SiteRefusal::Missing(text),
        Err(_) => SiteRefusal::NoMemory,
    }
}

/// The value of the key has another kind, or isn't of its form.
pub fn wrong_value(alloc: Global, place: &Place, key: Key) -> SiteRefusal
    ensures { IsSaid result (Some (is_wrong_kind (key_text place.now (key_word key)))) }
{
    match place.key_text(alloc, key.word()) {
        Ok(text) => SiteRefusal::WrongKind(text),
        Err(_) => SiteRefusal::NoMemory,
    }
}

/// An item of the list at the key has another kind, or isn't of its form.
pub fn wrong_item(alloc: Global, place: &Place, key: Key, item: usize) -> SiteRefusal
    ensures { IsSaid result (Some (is_wrong_kind (item_text place.now (key_word key) item))) }
{
    match place.item_text(alloc, key.word(), item) {
        Ok(text) => SiteRefusal::WrongKind(text),
        Err(_) => SiteRefusal::NoMemory,
    }
}

/// What stands in a list of tables isn't a table.
pub fn wrong_row(alloc: Global, place: &Place) -> SiteRefusal
    ensures { IsSaid result (Some (is_wrong_kind (row_text place.now))) }
{
    match place.row_text(alloc) {
        Ok(text) => SiteRefusal::WrongKind(text),
        Err(_) => SiteRefusal::NoMemory,
    }
}

/// The table doesn't have a key of this name.
pub fn unknown(alloc: Global, place: &Place, name: &str) -> SiteRefusal
    ensures { IsSaid result (Some (is_unknown (key_text place.now name.now))) }
{
    match place.key_text(alloc, name) {
        Ok(text) => SiteRefusal::Unknown(text),
        Err(_) => SiteRefusal::NoMemory,
    }
}

/// The number at the key, or the length of its list, is outside its range.
pub fn out_of_range(alloc: Global, place: &Place, key: Key, number: i64) -> SiteRefusal
    ensures { IsSaid result (Some (is_out_of_range (key_text place.now (key_word key)) number)) }
{
    match place.key_text(alloc, key.word()) {
        Ok(text) => SiteRefusal::OutOfRange(text, number),
        Err(_) => SiteRefusal::NoMemory,
    }
}

/// The number that is an item of the list at the key is outside its range.
pub fn item_out_of_range(
    alloc: Global,
    place: &Place,
    key: Key,
    item: usize,
    number: i64,
) -> SiteRefusal
    ensures { IsSaid result
        (Some (is_out_of_range (item_text place.now (key_word key) item) number)) }
{
    match place.item_text(alloc, key.word(), item) {
        Ok(text) => SiteRefusal::OutOfRange(text, number),
        Err(_) => SiteRefusal::NoMemory,
    }
}
