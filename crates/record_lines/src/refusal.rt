use crate::why::Why;

/// The refusal of a record.
#[derive(Clone, Copy, Debug, PartialEq, Eq)]
pub struct Refusal {
    /// The number of the line, from 1.
    pub line: u64,
    pub why: Why,
}
