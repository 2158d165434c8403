use tick_units::Tick;

/// What the operations done before a tick say of a zone whose alarms that count confirm and release it by themselves.
#[derive(Clone, Copy)]
pub struct PlainZone {
    /// Its place in the site.
    pub zone: u16,
    /// Its number at the panel, from 1.
    pub number: u8,
    /// Whether it is disabled or in test, so that no alarm of its points counts.
    pub blocked: bool,
    /// Its last floor.
    pub floor: Tick,
    /// Whether all of them lie before the tick, so that they say the same from then on.
    pub settled: bool,
}
