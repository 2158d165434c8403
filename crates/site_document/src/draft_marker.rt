use crate::draft_term::DraftTerm;
use crate::key_text::KeyText;
use site_types::Combine;
use tick_units::Items;

/// A marker, with its terms by their names.
#[derive(Drop)]
pub struct DraftMarker {
    pub name: KeyText,
    pub combine: Combine,
    pub terms: Items<DraftTerm>,
}
