use crate::line::Line;
use crate::refusal::Refusal;

/// What a piece of a record brought.
#[derive(Drop)]
pub enum Step {
    /// No line came to its end, and none is refused: more is needed.
    Need,
    Line(Line),
    Refused(Refusal),
}
