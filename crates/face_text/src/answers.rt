use crate::op_answers::OpAnswers;

/// What is answered in a tick.
#[derive(Drop)]
pub struct Answers {
    /// By their numbers.
    pub ops: OpAnswers,
    /// How many operations found each panel busy.
    pub busy: [u64; 8],
    /// Whether Keep's turn failed.
    pub failed: bool,
}
