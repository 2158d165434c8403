ghost use Rattle.std.specs.Prelude.{◌≡◌, IfOk, string_bytes};
ghost use Rattle.site_document.specs.Texts.{row_text, key_text as key_text_of, item_text as item_text_of};

use crate::key_text::KeyText;
use crate::row_kind::RowKind;
use std::alloc::{AllocError, Global};

/// Where a table of a site file stands.
#[derive(Clone, Copy, Debug, PartialEq, Eq)]
pub struct Place {
    pub kind: RowKind,
    /// Counted from 1 in its list; 0 for the table of the whole file.
    pub number: usize,
}

impl Place {
    /// The table, as `zone[2]`.
    pub fn row_text(&self, alloc: Global) -> Result<KeyText, AllocError>
        ensures { IfOk result (λ k. k ≡ row_text self.now) }
    {
        Ok(KeyText::from_string(self.row_string(alloc)?))
    }

    /// A key of the table, as `zone[2].panel`; of the table of the whole file the key alone.
    pub fn key_text(&self, alloc: Global, name: &str) -> Result<KeyText, AllocError>
        ensures { IfOk result (λ k. k ≡ key_text_of self.now name.now) }
    {
        Ok(KeyText::from_string(self.key_string(alloc, name)?))
    }

    /// An item of the list at a key of the table, as `marker[1].terms[3]`; places of items count from 1.
    #[tactic(auto, unfolding(crate::specs::Texts::item_text))]
    pub fn item_text(&self, alloc: Global, name: &str, item: usize) -> Result<KeyText, AllocError>
        ensures { IfOk result (λ k. k ≡ item_text_of self.now name.now item) }
    {
        let key = self.key_string(alloc, name)?;
        let key = key.as_str();
        Ok(KeyText::from_string(format!(in alloc; "{key}[{item}]")?))
    }

    #[tactic(auto, unfolding(crate::specs::Texts::row_text))]
    fn row_string(&self, alloc: Global) -> Result<String, AllocError>
        ensures { IfOk result (λ s. string_bytes s ≡ row_text self.now) }
    {
        let word = self.kind.word();
        let number = self.number;
        format!(in alloc; "{word}[{number}]")
    }

    #[tactic(auto, unfolding(crate::specs::Texts::key_text))]
    fn key_string(&self, alloc: Global, name: &str) -> Result<String, AllocError>
        ensures { IfOk result (λ s. string_bytes s ≡ key_text_of self.now name.now) }
    {
        if self.number == 0 {
            return String::from_str(alloc, name);
        }
        let mut text = self.row_string(alloc)?;
        text.push_str(".")?;
        text.push_str(name)?;
        Ok(text)
    }
}
