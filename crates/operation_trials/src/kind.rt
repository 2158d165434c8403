/// What a case tries.
#[derive(Clone, Copy)]
pub(crate) enum Kind {
    /// A record, what fails given: what the system tells, and whether the plain program tells the same.
    Operations,
    /// A history on a line: what the system alone tells.
    System,
    /// Drawn records: that the plain program tells the same.
    DrawnOperations,
}

/// The kinds by name.
pub(crate) const KINDS: [(&str, Kind); 3] = [
    ("operations", Kind::Operations),
    ("system", Kind::System),
    ("drawn-operations", Kind::DrawnOperations),
];
