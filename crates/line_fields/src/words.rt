//! The words that fields hold.

ghost use Rattle.std.specs.Prelude.{◌≡◌, bytes_eq};
ghost use Rattle.line_fields.specs.Words.{truth_of};

/// Whether a field is a word.
pub fn is_word(field: &[u8], word: &[u8]) -> bool
    ensures { result ≡ bytes_eq field.now word.now }
{
    field == word
}

/// What `on` and `off` say.
pub fn read_truth(word: &[u8]) -> Option<bool>
    ensures { result ≡ truth_of word.now }
{
    if is_word(word, b"on") {
        Some(true)
    } else if is_word(word, b"off") {
        Some(false)
    } else {
        None
    }
}
