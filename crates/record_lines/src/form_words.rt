//! Which row a line of an event is of, by its first word, the number of its fields and its fixed words.

ghost use Rattle.std.specs.Prelude.{◌≡◌};
ghost use Rattle.record_lines.specs.Forms.{action_of, cable_form, event_form_of, is_code_field, link_form};
ghost use Rattle.record_lines.specs.Forms.{named_action_of, op_form, plain_action_of, point_form, routing_form};
ghost use Rattle.record_lines.specs.Forms.{supply_form, zone_action_of};
ghost use Rattle.site_types.specs.Fields.{field as field_at};

use crate::form::{Action, EventForm};
use crate::words::{is_bad, is_up, item_kind, piece_state, point_state, supply_kind};
use line_fields::{field, field_count, is_word, read_truth};
use site_types::{Operation, read_code};

/// The row of a line with this first word, if it tells what befalls the site.
pub fn event_form(text: &[u8], word: &[u8]) -> Option<EventForm>
    requires { word.now ≡ field_at 0 text.now }
    ensures { result ≡ event_form_of text.now }
{
    if is_word(word, b"point") {
        point(text)
    } else if is_word(word, b"cable") {
        cable(text)
    } else if is_word(word, b"supply") {
        supply(text)
    } else if is_word(word, b"link") {
        link(text)
    } else if is_word(word, b"routing") {
        routing(text)
    } else if is_word(word, b"op") {
        op(text)
    } else {
        None
    }
}

fn point(text: &[u8]) -> Option<EventForm>
    ensures { result ≡ point_form text.now }
{
    if field_count(text) != 3 {
        return None;
    }
    match point_state(field(text, 2)) {
        Some(state) => Some(EventForm::Point(state)),
        None => None,
    }
}

fn cable(text: &[u8]) -> Option<EventForm>
    ensures { result ≡ cable_form text.now }
{
    if field_count(text) != 5 {
        return None;
    }
    match piece_state(field(text, 4)) {
        Some(state) => Some(EventForm::Cable(state)),
        None => None,
    }
}

fn supply(text: &[u8]) -> Option<EventForm>
    ensures { result ≡ supply_form text.now }
{
    if field_count(text) != 4 {
        return None;
    }
    match (supply_kind(field(text, 2)), is_bad(field(text, 3))) {
        (Some(kind), Some(bad)) => Some(EventForm::Supply(kind, bad)),
        _ => None,
    }
}

fn link(text: &[u8]) -> Option<EventForm>
    ensures { result ≡ link_form text.now }
{
    if field_count(text) != 3 {
        return None;
    }
    match is_up(field(text, 2)) {
        Some(up) => Some(EventForm::Link(up)),
        None => None,
    }
}

fn routing(text: &[u8]) -> Option<EventForm>
    ensures { result ≡ routing_form text.now }
{
    if field_count(text) == 3 && is_word(field(text, 2), b"confirmed") {
        Some(EventForm::Routing)
    } else {
        None
    }
}

fn op(text: &[u8]) -> Option<EventForm>
    ensures { result ≡ op_form text.now }
{
    if !has_code_form(field(text, 2)) {
        return None;
    }
    match action(text) {
        Some(action) => Some(EventForm::Op(action)),
        None => None,
    }
}

/// Whether a field is a code, or `-` for none.
fn has_code_form(code: &[u8]) -> bool
    ensures { result ≡ is_code_field code.now }
{
    is_word(code, b"-") || read_code(code).is_some()
}

/// What an operation line asks for, by its fields from the fourth on.
fn action(text: &[u8]) -> Option<Action>
    ensures { result ≡ action_of text.now }
{
    let word = field(text, 3);
    match field_count(text) {
        4 => plain_action(word),
        5 => zone_action(word, field(text, 4)),
        6 => named_action(word, field(text, 4)),
        _ => None,
    }
}

fn plain_action(word: &[u8]) -> Option<Action>
    ensures { result ≡ plain_action_of word.now }
{
    if is_word(word, b"mute") {
        Some(Action::Plain(Operation::Mute))
    } else if is_word(word, b"override") {
        Some(Action::Plain(Operation::Override))
    } else if is_word(word, b"silence") {
        Some(Action::Plain(Operation::Silence))
    } else if is_word(word, b"resound") {
        Some(Action::Plain(Operation::Resound))
    } else if is_word(word, b"reset") {
        Some(Action::Plain(Operation::Reset))
    } else if is_word(word, b"clear") {
        Some(Action::Plain(Operation::Clear))
    } else {
        None
    }
}

fn zone_action(word: &[u8], next: &[u8]) -> Option<Action>
    ensures { result ≡ zone_action_of word.now next.now }
{
    if is_word(word, b"delays") {
        match read_truth(next) {
            Some(on) => Some(Action::Plain(Operation::Delays(on))),
            None => None,
        }
    } else if is_word(word, b"cancel") {
        Some(Action::Cancel)
    } else if is_word(word, b"test") {
        Some(Action::Test)
    } else if is_word(word, b"untest") {
        Some(Action::Untest)
    } else {
        None
    }
}

fn named_action(word: &[u8], kind: &[u8]) -> Option<Action>
    ensures { result ≡ named_action_of word.now kind.now }
{
    let kind = match item_kind(kind) {
        Some(kind) => kind,
        None => return None,
    };
    if is_word(word, b"disable") {
        Some(Action::Disable(kind))
    } else if is_word(word, b"enable") {
        Some(Action::Enable(kind))
    } else {
        None
    }
}
