//! The limits of a site and of what speaks of it, apart from those that go by its format.

/// Panels of a site.
pub const MOST_PANELS: u8 = 8;
/// Loops of a panel.
pub const MOST_LOOPS: u8 = 4;
/// Zones of a panel.
pub const MOST_ZONES: u8 = 32;
/// Outputs of a panel.
pub const MOST_OUTPUTS: u8 = 32;
/// Markers of a site.
pub const MOST_MARKERS: usize = 256;
/// Terms of a marker.
pub const MOST_TERMS: usize = 64;
/// Codes of a level.
pub const MOST_CODES: usize = 16;
/// Operations that a panel takes in a tick; the others find it busy.
pub const MOST_OPERATIONS: usize = 4;
/// Bytes of a name.
pub const NAME_BYTES: usize = 16;
/// Bytes of a record's line without its line end.
pub const LINE_BYTES: usize = 512;
/// Bytes of a site file.
pub const SITE_BYTES: usize = 1_048_576;
/// Where an alarm counter stays.
pub const GREATEST_COUNT: u32 = 999_999;
