ghost use Rattle.std.specs.Prelude.{◌≡◌, pos};
ghost use Rattle.toml.specs.View.{items_view, table_view};
ghost use Rattle.site_document.specs.Ranges.{first_fall, is_between as is_between_in, length_out, number_out, out_at};
ghost use Rattle.site_document.specs.Ranges.{length_range as length_range_of};
ghost use Rattle.site_document.specs.Refusals.{Tells};
ghost use Rattle.site_document.specs.Tables.{count_of, integer_at as integer_in, items_at as items_in};
ghost use Rattle.site_document.specs.Texts.{key_text, key_word};

use crate::form::Form;
use crate::key::Key;
use crate::place::Place;
use crate::ranges::{Range, length_range, range_of};
use crate::refusal::SiteRefusal;
use crate::refusals::{item_out_of_range, out_of_range};
use crate::rules::form_of;
use crate::tables::{integer_at, items_at, natural, natural_at};
use std::alloc::Global;
use toml::{Table, Value};

/// Refuses a table in which a number, an isolator or the length of a list at a key is out of range.
#[tactic(auto, unfolding(crate::specs::Ranges::out_at))]
pub fn check_range(
    alloc: Global,
    place: &Place,
    top: &Table,
    table: &Table,
    key: Key,
) -> Result<(), SiteRefusal>
    ensures { Tells result (out_at place.now (table_view top.now) (table_view table.now) key) }
{
    match form_of(key) {
        Form::Number => check_number(alloc, place, &range_of(key, top, table), table, key),
        Form::Numbers => check_isolators(
            alloc,
            place,
            natural_at(table, Key::Last),
            items_at(table, key),
        ),
        Form::Digests => check_length(alloc, place, table, key),
        Form::Terms => check_length(alloc, place, table, key),
        Form::Tables => check_length(alloc, place, table, key),
        Form::Name => Ok(()),
        Form::ZoneType => Ok(()),
        Form::PointKind => Ok(()),
        Form::OutputKind => Ok(()),
        Form::MarkerKind => Ok(()),
    }
}

fn check_number(
    alloc: Global,
    place: &Place,
    range: &Range,
    table: &Table,
    key: Key,
) -> Result<(), SiteRefusal>
    ensures { Tells result (number_out range.now (key_text place.now (key_word key))
        (integer_in key (table_view table.now))) }
{
    match integer_at(table, key) {
        None => Ok(()),
        Some(number) => {
            if range.contains(number) {
                Ok(())
            } else {
                Err(out_of_range(alloc, place, key, number))
            }
        }
    }
}

fn check_length(alloc: Global, place: &Place, table: &Table, key: Key) -> Result<(), SiteRefusal>
    ensures { Tells result (length_out (length_range_of key) (key_text place.now (key_word key))
        (count_of (items_in key (table_view table.now)))) }
{
    let count = count(items_at(table, key));
    match length_range(key) {
        None => Ok(()),
        Some(range) => {
            if range.contains(count) {
                Ok(())
            } else {
                Err(out_of_range(alloc, place, key, count))
            }
        }
    }
}

/// How many items a list has.
#[tactic(auto, using(crate::proofs::Counts::count_of_view))]
fn count(items: &[Value]) -> i64
    ensures { result ≡ pos (count_of (items_view items.now)) }
{
    items.len() as i64
}

/// Refuses the first isolator that isn't above the one before and below `end`.
fn check_isolators(
    alloc: Global,
    place: &Place,
    end: u64,
    items: &[Value],
) -> Result<(), SiteRefusal>
    ensures { Tells result (first_fall place.now 0 end 1 (items_view items.now)) }
{
    let mut before = 0;
    'items: for (index, item) in items.iter().enumerate() {
        if let Some(number) = item.as_integer() {
            if !is_between(before, end, number) {
                return Err(item_out_of_range(alloc, place, Key::Isolators, index + 1, number));
            }
            before = natural(number);
        }
    }
    Ok(())
}

fn is_between(before: u64, end: u64, number: i64) -> bool
    ensures { result ≡ is_between_in before end number }
{
    number >= 0 && before < number as u64 && (number as u64) < end
}
