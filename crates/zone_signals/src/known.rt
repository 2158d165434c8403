use crate::members::Members;
use crate::zone_floor::ZoneFloor;
use point_runs::PointRun;
use site_types::Site;

/// What is known of a site when a tick begins.
#[derive(Clone, Copy)]
pub struct Known<'a> {
    pub site: &'a Site,
    /// The points of each zone.
    pub members: &'a [Members],
    /// The ticks at which each point signals, as they stand after the tick before.
    pub runs: &'a [PointRun],
    /// When the signals of each zone were last undone.
    pub rows: &'a [ZoneFloor],
    pub tick: u64,
}
