use crate::run_end::RunEnd;

/// What came of a piece of a record.
#[derive(Clone, Copy)]
pub struct Taken {
    /// How many of its bytes were used.
    pub used: usize,
    /// How the run ended, if it did.
    pub end: Option<RunEnd>,
}
