use crate::step::Step;

/// What a reader made of a piece.
#[derive(Drop)]
pub struct Fed {
    /// How many bytes of the piece were used.
    pub used: usize,
    pub step: Step,
}
