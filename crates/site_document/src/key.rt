ghost use Rattle.std.specs.Prelude.{◌≡◌};
ghost use Rattle.site_document.specs.Texts.{key_word};

/// A key of a table of a site file. Two keys of one word that ask for different things are two keys here.
#[derive(Clone, Copy, Debug, PartialEq, Eq)]
pub enum Key {
    Address,
    ChargerWait,
    Count,
    Delay,
    Format,
    Isolators,
    Last,
    Level2,
    Level3,
    Level4,
    /// `loop`: the number of a loop.
    Loop,
    /// `loop`: the list of loops.
    Loops,
    MainsWait,
    /// `kind` of a marker.
    MarkerKind,
    Markers,
    Name,
    Number,
    /// `kind` of an output.
    OutputKind,
    Outputs,
    Panel,
    Panels,
    Partner,
    /// `kind` of a point.
    PointKind,
    Points,
    Site,
    StandbyWait,
    Terms,
    Type,
    Verify,
    VoltageWait,
    When,
    Within,
    /// `zone`: the name of a zone.
    Zone,
    /// `zone`: the list of zones.
    Zones,
}

impl Key {
    /// The key as it stands in the file.
    #[tactic(auto, unfolding(crate::specs::Texts::key_word))]
    pub fn word(self) -> &'static str
        ensures { result.now ≡ key_word self }
    {
        match self {
            Key::Address => "address",
            Key::ChargerWait => "charger_wait",
            Key::Count => "count",
            Key::Delay => "delay",
            Key::Format => "format",
            Key::Isolators => "isolators",
            Key::Last => "last",
            Key::Level2 => "level2",
            Key::Level3 => "level3",
            Key::Level4 => "level4",
            Key::Loop => "loop",
            Key::Loops => "loop",
            Key::MainsWait => "mains_wait",
            Key::MarkerKind => "kind",
            Key::Markers => "marker",
            Key::Name => "name",
            Key::Number => "number",
            Key::OutputKind => "kind",
            Key::Outputs => "output",
            Key::Panel => "panel",
            Key::Panels => "panels",
            Key::Partner => "partner",
            Key::PointKind => "kind",
            Key::Points => "point",
            Key::Site => "site",
            Key::StandbyWait => "standby_wait",
            Key::Terms => "terms",
            Key::Type => "type",
            Key::Verify => "verify",
            Key::VoltageWait => "voltage_wait",
            Key::When => "when",
            Key::Within => "within",
            Key::Zone => "zone",
            Key::Zones => "zone",
        }
    }
}
