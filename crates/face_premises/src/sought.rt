use crate::wanted::Wanted;
use site_types::Zone;

/// A zone, and which of its signals are looked for.
#[derive(Clone, Copy)]
pub(crate) struct Sought<'a> {
    /// The zone's place in the site's list.
    pub(crate) place: usize,
    pub(crate) zone: &'a Zone,
    /// The tick of the zone's last floor, behind which a signal counts.
    pub(crate) floor: u64,
    /// The last tick that is looked at.
    pub(crate) now: u64,
    pub(crate) wanted: Wanted,
}
