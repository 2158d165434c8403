use crate::combine::Combine;
use crate::label::Label;
use crate::term::Term;
use tick_units::Items;

/// A row of cause and effect: terms combined to one truth value.
#[derive(Drop)]
pub struct Marker {
    pub name: Label,
    pub combine: Combine,
    /// 1 to 64 terms.
    pub terms: Items<Term>,
}
