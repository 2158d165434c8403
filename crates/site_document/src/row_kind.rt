ghost use Rattle.std.specs.Prelude.{◌≡◌};
ghost use Rattle.site_document.specs.Texts.{kind_word};

/// Which tables of a site file a table belongs to.
#[derive(Clone, Copy, Debug, PartialEq, Eq)]
pub enum RowKind {
    /// The table of the whole file.
    Top,
    Loop,
    Zone,
    Point,
    Output,
    Marker,
}

impl RowKind {
    /// The key of the list in which such tables stand; empty for the table of the whole file.
    #[tactic(auto, unfolding(crate::specs::Texts::kind_word))]
    pub fn word(self) -> &'static str
        ensures { result.now ≡ kind_word self }
    {
        match self {
            RowKind::Top => "",
            RowKind::Loop => "loop",
            RowKind::Zone => "zone",
            RowKind::Point => "point",
            RowKind::Output => "output",
            RowKind::Marker => "marker",
        }
    }
}
