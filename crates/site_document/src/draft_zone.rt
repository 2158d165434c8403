use crate::key_text::KeyText;
use site_types::Rule;

/// A zone, with its partner by its name.
#[derive(Drop)]
pub struct DraftZone {
    pub name: KeyText,
    pub panel: u8,
    pub number: u8,
    pub rule: Rule,
    pub partner: Option<KeyText>,
}
