use tick_units::Tick;

/// What an answer means for the zones of its panel. Masks have bit `number - 1` for each zone.
#[derive(Clone, Copy, Debug, Default, PartialEq, Eq)]
pub struct Finding {
    /// The tick in which the point was asked.
    pub stamp: Tick,
    pub point: u16,
    /// The zone of the point, if the answer counts.
    pub counted: u32,
    /// The zones that the answer confirms.
    pub confirmed: u32,
    /// The zone of the point, if the answer counts and is of a manual call point.
    pub manual: u32,
    /// The zones that the answer releases.
    pub released: u32,
    /// Whether the point's last three answers were silent.
    pub missing: bool,
}
