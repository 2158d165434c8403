/// What a case tries.
#[derive(Clone, Copy)]
pub(crate) enum Kind {
    /// What the register answers to calls, where some calls of its keeper fail.
    Calls,
    /// What the register answers to calls over a database in a file.
    OverFile,
    /// What the register answers to calls over a database in memory.
    OverMemory,
    /// Calls of which each call of the keeper fails in turn.
    EachFailure,
    /// Drawn calls of which some fail and are made again, against a keeper that never fails.
    DrawnCalls,
}

/// The kinds by name.
pub(crate) const KINDS: [(&str, Kind); 5] = [
    ("calls", Kind::Calls),
    ("over-file", Kind::OverFile),
    ("over-memory", Kind::OverMemory),
    ("each-failure", Kind::EachFailure),
    ("drawn-calls", Kind::DrawnCalls),
];
