use crate::refusal::Refusal;

/// Why a reader looks at nothing more.
#[derive(Clone, Copy)]
pub enum Over {
    /// The line `end` came.
    Ended,
    Refused(Refusal),
}
