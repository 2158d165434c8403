/// What a case tries. Behind the first bar of a line stand changes of a file, a record, or what is looked up.
#[derive(Clone, Copy)]
pub enum Kind {
    /// `check FILE`, `check FILE in format 2`, `check FILE in each format`, with changes: whether a site
    /// file is accepted.
    Check,
    /// `largest`: whether the largest site is accepted.
    Largest,
    /// `show FILE`: all that a site says.
    Show,
    /// `record SITE FILE`, or `record SITE` with a record and its changes: how it is read.
    Record,
    /// `line SITE`, with a line: how it is read behind `tick 1`.
    Line,
    /// `pieces SITE`, with pieces of a record: what is answered to each.
    Pieces,
    /// `has SITE`, with an event: whether the site has what it names.
    Has,
    /// `change SITE`, with an operation: what it changes of what is retained.
    Change,
    /// `carry BEFORE AFTER STATE`: what a changed site keeps.
    Carry,
}

/// The kinds by name.
pub const KINDS: [(&str, Kind); 9] = [
    ("check", Kind::Check),
    ("largest", Kind::Largest),
    ("show", Kind::Show),
    ("record", Kind::Record),
    ("line", Kind::Line),
    ("pieces", Kind::Pieces),
    ("has", Kind::Has),
    ("change", Kind::Change),
    ("carry", Kind::Carry),
];
