/// When a zone's signals were last undone.
#[derive(Clone, Copy)]
pub struct ZoneFloor {
    /// The tick of its last floor, 0 where there is none.
    pub floor: u64,
    /// The tick of its last cancelling, 0 where there is none.
    pub cancelled: u64,
}

impl ZoneFloor {
    pub const NONE: ZoneFloor = ZoneFloor {
        floor: 0,
        cancelled: 0,
    };
}
