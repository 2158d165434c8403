use crate::answers::Answers;
use crate::face::Face;
use tick_units::{Items, Tick};

/// A tick in which a face changed or something was answered.
#[derive(Drop)]
pub struct Step {
    pub tick: Tick,
    /// The faces after the tick, by panel.
    pub faces: Items<Face>,
    pub answers: Answers,
}
