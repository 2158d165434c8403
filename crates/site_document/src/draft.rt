use crate::draft_marker::DraftMarker;
use crate::draft_output::DraftOutput;
use crate::draft_point::DraftPoint;
use crate::draft_zone::DraftZone;
use crate::key_text::KeyText;
use site_types::{LoopPlan, Waits};
use tick_units::Items;

/// A site as its file spells it, with names where a [`site_types::Site`] has places.
#[derive(Drop)]
pub struct Draft {
    pub format: u8,
    pub name: KeyText,
    pub panels: u8,
    pub waits: Waits,
    /// The SHA-256 of each code of levels 2, 3 and 4.
    pub codes: [Items<[u8; 32]>; 3],
    pub loops: Items<LoopPlan>,
    pub zones: Items<DraftZone>,
    pub points: Items<DraftPoint>,
    pub outputs: Items<DraftOutput>,
    pub markers: Items<DraftMarker>,
}
