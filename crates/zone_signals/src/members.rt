ghost use Rattle.std.specs.Prelude.{◌≡◌, length};

use site_types::Site;
use std::alloc::Global;
use tick_units::NoMemory;

/// The places of a zone's points.
#[derive(Drop)]
pub struct Members {
    pub places: Vec<usize>,
}

impl Members {
    ghost use Rattle.std.specs.Prelude.{IfOk};
    ghost use Rattle.zone_signals.specs.Kinds.{AreMembers};

    /// The members of the zone at a place.
    pub fn of(alloc: Global, site: &Site, zone: usize) -> Result<Members, NoMemory>
        ensures { IfOk result (λ members. AreMembers site.now zone members.places.items) }
    {
        let mut places = Vec::new(alloc);
        for place in 0..site.points.len() {
            if is_point_of(site, zone, place) {
                places.push(place)?;
            }
        }
        Ok(Members { places })
    }
}

ghost use Rattle.coincidence_rules.specs.Places.{is_of};

fn is_point_of(site: &Site, zone: usize, place: usize) -> bool
    ensures { result ≡ is_of site.now zone place }
{
    match site.points.get(place) {
        None => false,
        Some(point) => point.zone as usize == zone,
    }
}

ghost use Rattle.std.specs.Prelude.{IfOk};
ghost use Rattle.zone_signals.specs.Kinds.{AreAllMembers};

/// The members of each zone.
pub fn all_members(alloc: Global, site: &Site) -> Result<Vec<Members>, NoMemory>
    ensures { IfOk result (λ members. AreAllMembers site.now members.items) }
{
    let mut members = Vec::new(alloc);
    for zone in 0..site.zones.len() {
        members.push(Members::of(alloc, site, zone)?)?;
    }
    Ok(members)
}
