use tick_units::Tick;

/// A point and the stamp of an answer of it.
#[derive(Clone, Copy)]
pub struct PointStamp {
    pub point: u16,
    pub stamp: Tick,
}
