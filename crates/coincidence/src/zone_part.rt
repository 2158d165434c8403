/// Of some alarms of a run, the first ones, which lie in one zone.
#[derive(Clone, Copy)]
pub struct ZonePart {
    /// The zones that each of them confirms and releases.
    pub zones: u32,
    /// The alarms behind them, by their bits.
    pub behind: u8,
}
