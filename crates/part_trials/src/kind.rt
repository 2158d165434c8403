/// What a case tries.
#[derive(Clone, Copy)]
pub(crate) enum Kind {
    /// What the points of a panel answer, tick by tick.
    Poll,
    /// Whether each address of four full loops is asked once in a round.
    FullLoops,
    /// What the answers of a panel's points confirm and release.
    Decide,
    /// Drawn answers and operations, by Decide and by the plain rules.
    DrawnDecide,
    /// What a panel shows.
    Hold,
}

/// The kinds by name.
pub(crate) const KINDS: [(&str, Kind); 5] = [
    ("poll", Kind::Poll),
    ("full-loops", Kind::FullLoops),
    ("decide", Kind::Decide),
    ("drawn-decide", Kind::DrawnDecide),
    ("hold", Kind::Hold),
];
