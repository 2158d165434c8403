/// How many alarms of which detectors confirm a zone: its type of coincidence.
#[derive(Clone, Copy, Debug, Default, PartialEq, Eq)]
pub enum Rule {
    /// One alarm confirms.
    #[default]
    Plain,
    /// One detector for `verify` ticks, or two detectors at most `within` ticks apart.
    A { verify: u16, within: u16 },
    /// Two detectors of the zone and its partner, at most `within` ticks apart.
    B { within: u16 },
    /// One alarm confirms; outputs wait for a second point or a manual call point.
    C,
}
