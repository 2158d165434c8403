use crate::key_text::KeyText;
use site_types::OutputKind;

/// An output, with its marker by its name.
#[derive(Drop)]
pub struct DraftOutput {
    pub name: KeyText,
    pub panel: u8,
    pub number: u8,
    pub kind: OutputKind,
    pub marker: KeyText,
    pub delay: u16,
}
