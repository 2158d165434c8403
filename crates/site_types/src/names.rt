//! Names and codes, which lie in labels.

ghost use Rattle.std.specs.Prelude.{◌≡◌, ◌≤◌, Some, length, option_map};
ghost use Rattle.std.specs.List.{list_all};
ghost use Rattle.std.specs.Str.{IsUtf8};
ghost use Rattle.site_types.specs.Limits.{name_bytes};
ghost use Rattle.site_types.specs.Names.{begins_with_letter, code_of, is_code, is_code_byte, is_name, is_name_byte};
ghost use Rattle.site_types.specs.Names.{name_of};

use crate::label::Label;
use crate::limits::NAME_BYTES;

/// The name that a text spells, if it has a name's form.
pub fn read_name(text: &[u8]) -> Option<Label>
    ensures { option_map (λ label. label.bytes) result ≡ name_of text.now }
{
    if has_name_form(text) {
        copy(text)
    } else {
        None
    }
}

/// The code that a text spells, if it has a code's form.
pub fn read_code(text: &[u8]) -> Option<Label>
    ensures { option_map (λ label. label.bytes) result ≡ code_of text.now }
{
    if has_code_form(text) {
        copy(text)
    } else {
        None
    }
}

fn has_name_form(text: &[u8]) -> bool
    ensures { result ≡ is_name text.now }
{
    has_letter_first(text) && text.len() <= NAME_BYTES && is_all_of_names(text)
}

fn has_code_form(text: &[u8]) -> bool
    ensures { result ≡ is_code text.now }
{
    !text.is_empty() && text.len() <= NAME_BYTES && is_all_of_codes(text)
}

fn has_letter_first(text: &[u8]) -> bool
    ensures { result ≡ begins_with_letter text.now }
{
    match text {
        [first, ..] => first.is_ascii_lowercase(),
        [] => false,
    }
}

fn is_all_of_names(text: &[u8]) -> bool
    ensures { result ≡ list_all is_name_byte text.now }
{
    text.iter().all(|byte| may_be_in_name(*byte))
}

fn is_all_of_codes(text: &[u8]) -> bool
    ensures { result ≡ list_all is_code_byte text.now }
{
    text.iter().all(|byte| may_be_in_code(*byte))
}

fn may_be_in_name(byte: u8) -> bool
    ensures { result ≡ is_name_byte byte }
{
    byte.is_ascii_lowercase() || byte.is_ascii_digit() || byte == b'-'
}

fn may_be_in_code(byte: u8) -> bool
    ensures { result ≡ is_code_byte byte }
{
    byte.is_ascii_lowercase() || byte.is_ascii_digit()
}

/// A label of a short text.
fn copy(text: &[u8]) -> Option<Label>
    ensures { IsUtf8 text.now → length text.now ≤ name_bytes
        → option_map (λ label. label.bytes) result ≡ Some text.now }
{
    match str::from_utf8(text) {
        Ok(text) => match Label::from(text) {
            Ok(label) => Some(label),
            Err(_) => None,
        },
        Err(_) => None,
    }
}
