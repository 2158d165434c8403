ghost use Rattle.std.specs.Prelude.{◌≡◌, is_some, option_copied, option_map};
ghost use Rattle.std.specs.List.{list_all};
ghost use Rattle.site_types.specs.Names.{is_name as is_name_text};
ghost use Rattle.site_types.specs.Numbers.{number_of};
ghost use Rattle.site_document.specs.Terms.{
  after as after_word,
  is_digest as is_digest_text,
  is_hex_digit as is_hex_digit_byte,
  is_operand as is_operand_text,
  is_term as is_term_text,
  split_term as split_term_of,
};

use site_types::{read_name, read_number};

/// What a term of a marker asks for.
#[derive(Clone, Copy, Debug, PartialEq, Eq)]
pub enum TermKind {
    Zone,
    Manual,
    Fault,
    Marker,
}

/// The kind of a term, and what follows its word.
#[tactic(auto, unfolding(crate::specs::Terms::split_term))]
pub fn split_term(text: &str) -> Option<(TermKind, &str)>
    ensures { option_map (λ parts. (parts.0, parts.1.now)) result ≡ split_term_of text.now }
{
    if let Some(rest) = after(text, "zone:") {
        return Some((TermKind::Zone, rest));
    }
    if let Some(rest) = after(text, "manual:") {
        return Some((TermKind::Manual, rest));
    }
    if let Some(rest) = after(text, "fault:") {
        return Some((TermKind::Fault, rest));
    }
    if let Some(rest) = after(text, "marker:") {
        return Some((TermKind::Marker, rest));
    }
    None
}

/// What follows a word at the beginning of a text.
fn after<'a>(text: &'a str, word: &str) -> Option<&'a str>
    ensures { option_copied result ≡ after_word word.now text.now }
{
    text.strip_prefix(word)
}

/// Whether a text is a term.
#[tactic(auto, unfolding(crate::specs::Terms::is_term))]
pub fn is_term(text: &str) -> bool
    ensures { result ≡ is_term_text text.now }
{
    match split_term(text) {
        None => false,
        Some((kind, rest)) => is_operand(kind, rest),
    }
}

fn is_operand(kind: TermKind, rest: &str) -> bool
    ensures { result ≡ is_operand_text kind rest.now }
{
    match kind {
        TermKind::Zone => is_name(rest.as_bytes()),
        TermKind::Manual => is_name(rest.as_bytes()),
        TermKind::Fault => read_number(rest.as_bytes()).is_some(),
        TermKind::Marker => is_name(rest.as_bytes()),
    }
}

/// Whether a text is a name.
pub fn is_name(text: &[u8]) -> bool
    ensures { result ≡ is_name_text text.now }
{
    read_name(text).is_some()
}

/// Whether a text is 64 lower-case hexadecimal digits.
#[tactic(auto, unfolding(crate::specs::Terms::is_digest))]
pub fn is_digest(text: &[u8]) -> bool
    ensures { result ≡ is_digest_text text.now }
{
    text.len() == 64 && is_all_hex_digits(text)
}

fn is_all_hex_digits(text: &[u8]) -> bool
    ensures { result ≡ list_all is_hex_digit_byte text.now }
{
    text.iter().all(|byte| is_hex_digit(*byte))
}

fn is_hex_digit(byte: u8) -> bool
    ensures { result ≡ is_hex_digit_byte byte }
{
    byte.is_ascii_digit() || (b'a' <= byte && byte <= b'f')
}
