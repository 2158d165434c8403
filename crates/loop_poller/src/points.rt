ghost use Rattle.std.specs.Prelude.{IfOk};
ghost use Rattle.site_types.specs.Valid.{IsValid};
ghost use Rattle.loop_poller.specs.Points.{ArePoints};

use site_types::Site;
use std::alloc::{AllocError, Global};

/// The points of a loop of a panel by address, from 1 to the last that a loop of the site's format may have.
pub(crate) fn points_of(
    alloc: Global,
    site: &Site,
    panel: u8,
    line: u8,
) -> Result<Vec<Option<u16>>, AllocError>
    requires { IsValid site.now }
    ensures { IfOk result (λ points. ArePoints site.now panel line points.items) }
{
    let last = site.profile().last_address() as usize;
    let mut points = vec![in alloc; None; last]?;
    for (place, point) in site.points.as_slice().iter().enumerate() {
        if point.panel == panel && point.line == line {
            points[point.address as usize - 1] = Some(place as u16);
        }
    }
    Ok(points)
}
