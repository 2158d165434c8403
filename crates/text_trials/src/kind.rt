/// What a case tries. Sites, pages and texts are files.
#[derive(Clone, Copy)]
pub(crate) enum Kind {
    /// `change SITE PANEL: FACE -> FACE`: the lines that tell the change, and in how many writes they came.
    Change,
    /// `failing N change ..`: how much was written where the Nth write fails.
    Failing,
    /// `lists SITE PANEL: FACE`: each list of a face in JSON.
    Lists,
    /// `conditions PANEL: FACE`: the conditions that the panel is in.
    Conditions,
    /// `answers: ANSWER, ANSWER` and so on: their lines.
    Answers,
    /// `text SITE TEXT`: a text that is read and written again.
    Text,
    /// `read SITE "TEXT"`: the same of a text that stands in the line, with bars for line ends.
    Read,
    /// `damage SITE PAGE TEXT`: a text that is read with each of its lines and bytes otherwise.
    Damage,
}

/// The kinds by name.
pub(crate) const KINDS: [(&str, Kind); 8] = [
    ("change", Kind::Change),
    ("failing", Kind::Failing),
    ("lists", Kind::Lists),
    ("conditions", Kind::Conditions),
    ("answers", Kind::Answers),
    ("text", Kind::Text),
    ("read", Kind::Read),
    ("damage", Kind::Damage),
];
