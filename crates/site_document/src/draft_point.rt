use crate::key_text::KeyText;

/// A point, with its zone by its name.
#[derive(Drop)]
pub struct DraftPoint {
    pub name: KeyText,
    pub panel: u8,
    pub line: u8,
    pub address: u8,
    pub zone: KeyText,
    pub manual: bool,
}
