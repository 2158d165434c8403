use crate::heard::Heard;
use tick_units::Tick;

/// The answer of a point to one asking.
#[derive(Clone, Copy, Debug, Default, PartialEq, Eq)]
pub struct Answer {
    /// The tick in which it was asked.
    pub stamp: Tick,
    pub point: u16,
    pub heard: Heard,
}
