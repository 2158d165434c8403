ghost use Rattle.std.specs.Prelude.{◌≡◌};
ghost use Rattle.toml.specs.View.{items_view, table_view, view};
ghost use Rattle.site_document.specs.Refusals.{Tells};
ghost use Rattle.site_document.specs.WrongKind.{first_misfit as first_misfit_in, fits as fits_form};
ghost use Rattle.site_document.specs.WrongKind.{item_fits as item_fits_form, wrong_at};

use crate::form::Form;
use crate::key::Key;
use crate::place::Place;
use crate::refusal::SiteRefusal;
use crate::refusals::{wrong_item, wrong_value};
use crate::rules::form_of;
use crate::tables::{items_of, look_up};
use crate::terms::{is_digest, is_name, is_term};
use crate::words::{manual_of, marker_kind_of, output_kind_of, zone_type_of};
use std::alloc::Global;
use toml::{Table, Value};

/// Refuses a table in which the value at a key isn't what it has to be.
#[tactic(auto, unfolding(crate::specs::WrongKind::wrong_at))]
pub fn check_kind(alloc: Global, place: &Place, table: &Table, key: Key) -> Result<(), SiteRefusal>
    ensures { Tells result (wrong_at place.now (table_view table.now) key) }
{
    let value = match look_up(table, key) {
        Some(value) => value,
        None => return Ok(()),
    };
    if !fits(form_of(key), value) {
        return Err(wrong_value(alloc, place, key));
    }
    match first_misfit(form_of(key), items_of(value)) {
        None => Ok(()),
        Some(item) => Err(wrong_item(alloc, place, key, item)),
    }
}

/// Whether a value has a form; a list has it whatever its items are.
#[tactic(auto, unfolding(crate::specs::WrongKind::fits))]
fn fits(form: Form, value: &Value) -> bool
    ensures { result ≡ fits_form form (view value.now) }
{
    match form {
        Form::Number => value.is_integer(),
        Form::Name => match value.as_str() {
            Some(text) => is_name(text.as_bytes()),
            None => false,
        },
        Form::ZoneType => match value.as_str() {
            Some(text) => zone_type_of(text).is_some(),
            None => false,
        },
        Form::PointKind => match value.as_str() {
            Some(text) => manual_of(text).is_some(),
            None => false,
        },
        Form::OutputKind => match value.as_str() {
            Some(text) => output_kind_of(text).is_some(),
            None => false,
        },
        Form::MarkerKind => match value.as_str() {
            Some(text) => marker_kind_of(text).is_some(),
            None => false,
        },
        Form::Digests => value.is_array(),
        Form::Numbers => value.is_array(),
        Form::Terms => value.is_array(),
        Form::Tables => value.is_array(),
    }
}

/// Whether an item of a list has the form that the list's form asks of it.
#[tactic(auto, unfolding(crate::specs::WrongKind::item_fits))]
fn item_fits(form: Form, value: &Value) -> bool
    ensures { result ≡ item_fits_form form (view value.now) }
{
    match form {
        Form::Digests => match value.as_str() {
            Some(text) => is_digest(text.as_bytes()),
            None => false,
        },
        Form::Numbers => value.is_integer(),
        Form::Terms => match value.as_str() {
            Some(text) => is_term(text),
            None => false,
        },
        Form::Number => true,
        Form::Name => true,
        Form::ZoneType => true,
        Form::PointKind => true,
        Form::OutputKind => true,
        Form::MarkerKind => true,
        Form::Tables => true,
    }
}

/// The place, from 1, of the first item of a list that hasn't its form.
fn first_misfit(form: Form, items: &[Value]) -> Option<usize>
    ensures { result ≡ first_misfit_in form 1 (items_view items.now) }
{
    'items: for (index, item) in items.iter().enumerate() {
        if !item_fits(form, item) {
            return Some(index + 1);
        }
    }
    None
}
