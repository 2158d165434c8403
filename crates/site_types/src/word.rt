use tick_units::Tick;

/// What a panel tells the others of itself: its own zones and whether it shows a fault. Masks have bit
/// `number - 1` for each zone.
#[derive(Clone, Copy, Debug, Default, PartialEq, Eq)]
pub struct Word {
    /// The tick of the turn that made it; 0 before the first.
    pub stamp: Tick,
    /// The zones in alarm.
    pub alarm: u32,
    /// The zones with a manual call point in alarm.
    pub manual: u32,
    /// The zones for which outputs may act.
    pub released: u32,
    /// The zones in first state.
    pub first: u32,
    /// Whether the panel shows a fault.
    pub fault: bool,
}
