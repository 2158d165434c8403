ghost use Rattle.std.specs.Prelude.{◌≡◌, option_copied};
ghost use Rattle.panel_conditions.specs.PointSets.{put_all as put_all_in, put_at};
ghost use Rattle.panel_conditions.specs.Parts.{begun, points_at, points_from, switch_points};

use crate::loop_address::LoopAddress;
use crate::point_sets::{either, put, without};
use site_types::PointSet;
use tick_units::Tick;

/// A set of points that may change in a tick. In that tick it is still what it was before.
#[derive(Clone, Copy)]
pub struct PointSwitch {
    before: PointSet,
    after: PointSet,
    since: Tick,
}

impl PointSwitch {
    /// A switch that has been on for these points since the opening.
    pub fn new(points: PointSet) -> PointSwitch
        ensures { result ≡ points_from points }
    {
        PointSwitch {
            before: points,
            after: points,
            since: Tick(0),
        }
    }

    /// The set at a tick that isn't before its own.
    pub fn at(&self, x: Tick) -> PointSet
        ensures { result ≡ points_at x.0 self.now }
    {
        if self.since.0 < x.0 {
            self.after
        } else {
            self.before
        }
    }

    /// In a tick the point of an address is put in or taken out.
    pub fn put(&mut self, address: Option<LoopAddress>, on: bool, at: Tick)
        ensures { self.new ≡ switch_points (put_at address on) at self.old }
    {
        self.begin(at);
        put(&mut self.after, address, on);
    }

    /// In a tick these points are put in or taken out.
    pub fn put_all(&mut self, points: Option<&PointSet>, on: bool, at: Tick)
        ensures { self.new ≡ switch_points (put_all_in (option_copied points.entry) on) at
            self.old }
    {
        self.begin(at);
        if let Some(points) = points {
            self.after = if on {
                either(&self.after, points)
            } else {
                without(&self.after, points)
            };
        }
    }

    // What is set from now on is in force after this tick.
    fn begin(&mut self, at: Tick)
        ensures { self.new ≡ begun at self.old }
    {
        if self.since.0 < at.0 {
            self.before = self.after;
            self.since = at;
        }
    }
}
