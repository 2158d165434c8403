use crate::point_mark::PointMark;
use site_types::Site;
use tick_units::Tick;

/// What is marked of the points of a site, in a tick.
#[derive(Clone, Copy)]
pub(crate) struct Marked<'a> {
    pub(crate) site: &'a Site,
    pub(crate) marks: &'a [PointMark],
    pub(crate) tick: Tick,
}
