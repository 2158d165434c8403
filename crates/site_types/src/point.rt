use crate::label::Label;

/// A detector or a manual call point.
#[derive(Clone, Copy)]
pub struct Point {
    pub name: Label,
    pub panel: u8,
    /// The number of its loop, 1 to 4.
    pub line: u8,
    /// 1 to the last address of its loop.
    pub address: u8,
    /// The place of its zone.
    pub zone: u16,
    /// Whether it is a manual call point.
    pub manual: bool,
}
