use crate::face::Face;
use crate::step::Step;
use tick_units::{Items, Tick};

/// What a run shows and answers.
#[derive(Drop)]
pub struct Timeline {
    /// The faces at opening, by panel.
    pub opened: Items<Face>,
    /// A step for each tick in which a face changed or something was answered.
    pub steps: Items<Step>,
    /// The last tick of the run, 0 where there was none.
    pub last: Tick,
}
