ghost use Rattle.std.specs.Prelude.{◌≡◌};
ghost use Rattle.site_types.specs.Valid.{HasZone};

use site_types::{Label, Point, Site};

/// A point of the site as the register lists it.
#[derive(Clone, Copy)]
pub(crate) struct ListedPoint {
    pub(crate) name: Label,
    /// The name of its zone.
    pub(crate) zone: Label,
}

impl ListedPoint {
    ghost use Rattle.service_register.specs.Points.{point_row};
    ghost use Rattle.service_register.specs.Listed.{listed_row};

    // A point whose zone is there.
    pub(crate) fn of(site: &Site, point: &Point) -> ListedPoint
        requires { HasZone site.now point.now.panel point.now.zone }
        ensures { listed_row result ≡ point_row site.now point.now }
    {
        match site.zones.get(point.zone as usize) {
            Some(zone) => ListedPoint {
                name: point.name,
                zone: zone.name,
            },
            None => unreachable!(),
        }
    }
}
