use crate::key_text::KeyText;

/// A term of a marker, by its name.
#[derive(Drop)]
pub enum DraftTerm {
    Zone(KeyText),
    Manual(KeyText),
    Fault(u64),
    Marker(KeyText),
}
