/// What a case tries. Sites, records and texts are files.
#[derive(Clone, Copy)]
pub(crate) enum Kind {
    /// `audit SITE RECORD TEXT: CHANGE, CHANGE`: the verdict on a text with these changes, or as it stands.
    Audit,
    /// `judge SITE RECORD: TEXT`: the same of a text that stands in the line, with bars for line ends.
    Judge,
}

/// The kinds by name.
pub(crate) const KINDS: [(&str, Kind); 2] = [("audit", Kind::Audit), ("judge", Kind::Judge)];
