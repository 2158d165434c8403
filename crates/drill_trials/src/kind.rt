/// What a case tries.
#[derive(Clone, Copy)]
pub(crate) enum Kind {
    /// The site file.
    File,
    /// The line of a seed after so many ticks.
    Line,
    /// Whether the plain program counts the same.
    Plain,
    /// How much the parts of panel 1 have taken after each tick.
    Taken,
}

/// The kinds by name.
pub(crate) const KINDS: [(&str, Kind); 4] = [
    ("file", Kind::File),
    ("line", Kind::Line),
    ("plain", Kind::Plain),
    ("taken", Kind::Taken),
];
