ghost use Rattle.std.specs.Prelude.{◌≡◌, ◌<◌, ◌^◌, Some, option_map, option_copied};
ghost use Rattle.toml.specs.Data.{get_member};
ghost use Rattle.toml.specs.View.{items_view, table_view, view};
ghost use Rattle.site_document.specs.Tables.{
  format_at as format_in,
  integer_at as integer_in,
  items_at as items_in,
  items_in as items_from,
  list_key as list_key_in,
  marker_kind_at as marker_kind_in,
  natural_at as natural_under,
  natural_in as natural_from,
  text_at as text_in,
  type_at as type_in,
  value_at,
};

use crate::key::Key;
use crate::row_kind::RowKind;
use crate::words::{MarkerKind, ZoneType, marker_kind_of, zone_type_of};
use toml::{Table, Value};

/// The value at a key.
pub fn look_up(table: &Table, key: Key) -> Option<&Value>
    ensures { option_map (λ v. view v.now) result ≡ value_at key (table_view table.now) }
{
    member(table, key.word())
}

fn member<'a>(table: &'a Table, word: &str) -> Option<&'a Value>
    ensures { option_map (λ v. view v.now) result ≡ get_member word.now (table_view table.now) }
{
    table.get(word)
}

/// The items of the list at a key; none where no list stands there.
#[tactic(auto, unfolding(crate::specs::Tables::items_at))]
pub fn items_at(table: &Table, key: Key) -> &[Value]
    ensures { items_view result.now ≡ items_in key (table_view table.now) }
{
    match look_up(table, key) {
        Some(Value::Array(items)) => items.as_slice(),
        _ => &[],
    }
}

/// The items of a list; none of what isn't a list.
pub fn items_of(value: &Value) -> &[Value]
    ensures { items_view result.now ≡ items_from (Some (view value.now)) }
{
    match value {
        Value::Array(items) => items.as_slice(),
        _ => &[],
    }
}

/// The whole number at a key.
#[tactic(auto, unfolding(crate::specs::Tables::integer_at))]
pub fn integer_at(table: &Table, key: Key) -> Option<i64>
    ensures { result ≡ integer_in key (table_view table.now) }
{
    match look_up(table, key) {
        Some(value) => value.as_integer(),
        None => None,
    }
}

/// The number at a key; 0 where none stands there or it is below 0.
#[tactic(auto, unfolding(crate::specs::Tables::natural_at))]
pub fn natural_at(table: &Table, key: Key) -> u64
    ensures value { result ≡ natural_under key (table_view table.now) }
    ensures below { result < 2 ^ 63 }
{
    match integer_at(table, key) {
        Some(number) => natural(number),
        None => 0,
    }
}

/// A number; 0 in place of one below 0.
pub fn natural(number: i64) -> u64
    ensures value { result ≡ natural_from (Some number) }
    ensures below { result < 2 ^ 63 }
{
    if number >= 0 { number as u64 } else { 0 }
}

/// The text at a key.
#[tactic(auto, unfolding(crate::specs::Tables::text_at))]
pub fn text_at(table: &Table, key: Key) -> Option<&str>
    ensures { option_copied result ≡ text_in key (table_view table.now) }
{
    match look_up(table, key) {
        Some(value) => value.as_str(),
        None => None,
    }
}

/// The type of a zone.
#[tactic(auto, unfolding(crate::specs::Tables::type_at))]
pub fn type_at(table: &Table) -> ZoneType
    ensures { result ≡ type_in (table_view table.now) }
{
    match text_at(table, Key::Type) {
        Some(word) => match zone_type_of(word) {
            Some(type_named) => type_named,
            None => ZoneType::Plain,
        },
        None => ZoneType::Plain,
    }
}

/// The kind of a marker.
#[tactic(auto, unfolding(crate::specs::Tables::marker_kind_at))]
pub fn marker_kind_at(table: &Table) -> MarkerKind
    ensures { result ≡ marker_kind_in (table_view table.now) }
{
    match text_at(table, Key::MarkerKind) {
        Some(word) => match marker_kind_of(word) {
            Some(kind) => kind,
            None => MarkerKind::Any,
        },
        None => MarkerKind::Any,
    }
}

/// The format of a site: 2 where the file says so, else 1.
#[tactic(auto, unfolding(crate::specs::Tables::format_at))]
pub fn format_at(top: &Table) -> u8
    ensures { result ≡ format_in (table_view top.now) }
{
    if natural_at(top, Key::Format) == 2 {
        2
    } else {
        1
    }
}

/// The key at which the list of a kind of table stands.
pub fn list_key(kind: RowKind) -> Key
    ensures { result ≡ list_key_in kind }
{
    match kind {
        RowKind::Top => Key::Zones,
        RowKind::Loop => Key::Loops,
        RowKind::Zone => Key::Zones,
        RowKind::Point => Key::Points,
        RowKind::Output => Key::Outputs,
        RowKind::Marker => Key::Markers,
    }
}
