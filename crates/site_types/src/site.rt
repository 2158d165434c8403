ghost use Rattle.std.specs.Prelude.{◌≡◌};

use crate::label::Label;
use crate::loop_plan::LoopPlan;
use crate::marker::Marker;
use crate::named::Named;
use crate::output::Output;
use crate::point::Point;
use crate::profile::Profile;
use crate::waits::Waits;
use crate::zone::Zone;
use tick_units::Items;

/// A site as its site file spells it. A name in other types is the place in its list, from 0.
#[derive(Drop)]
pub struct Site {
    /// 1 or 2: ticks of half a second or of a quarter.
    pub format: u8,
    pub name: Label,
    /// 1 to 8.
    pub panels: u8,
    pub waits: Waits,
    /// The SHA-256 of each code of levels 2, 3 and 4.
    pub codes: [Items<[u8; 32]>; 3],
    pub loops: Items<LoopPlan>,
    pub zones: Items<Zone>,
    pub points: Items<Point>,
    pub outputs: Items<Output>,
    pub markers: Items<Marker>,
    /// The names of points, zones, outputs and markers, rising by their bytes.
    pub names: Items<Named>,
}

impl Site {
    /// The numbers of ticks that go by the site's format.
    pub fn profile(&self) -> Profile
        ensures { result.format ≡ self.now.format }
    {
        Profile::of(self.format)
    }
}
