ghost use Rattle.std.specs.Prelude.{◌≡◌, IfOk, string_bytes};

use std::alloc::{AllocError, Global};
use std::marker::Model;

/// A key or a name of a site file, of any length. Contracts see it as its bytes.
#[derive(Drop)]
pub struct KeyText {
    text: String,
}

impl Model for KeyText {
    ghost use Rattle.std.specs.Prelude.{ℕ, List, string_bytes};
    ghost use Rattle.std.specs.Coded.{coded_list, coded_ℕ};

    ghost Value = { List ℕ };

    ghost coded = { coded_list coded_ℕ };

    ghost view = { λ k. string_bytes k.text };
}

impl KeyText {
    /// The text as it stands.
    pub fn from_string(text: String) -> KeyText
        ensures { result ≡ string_bytes text }
    {
        KeyText { text }
    }

    /// A copy of the text.
    pub fn from_str(alloc: Global, text: &str) -> Result<KeyText, AllocError>
        ensures { IfOk result (λ k. k ≡ text.now) }
    {
        Ok(KeyText::from_string(String::from_str(alloc, text)?))
    }

    /// The text.
    pub fn as_str(&self) -> &str
        ensures { result.now ≡ self.now }
    {
        self.text.as_str()
    }
}
