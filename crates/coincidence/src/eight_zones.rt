ghost use Rattle.std.specs.Prelude.{◌≡◌, IfSome};
ghost use Rattle.coincidence.specs.ZoneMasks.{HaveZoneNumbers};

use crate::bits::one_bit;
use site_types::{Point, Zone, with_bit_8};

/// The zones in which eight points stand that follow one another, as masks: that of the first point, and another one.
#[derive(Clone, Copy)]
pub struct EightZones {
    pub zones: u32,
    /// The points that stand in the other zone: bit k for the one k places behind the first one.
    pub others: u8,
    pub other_zones: u32,
}

impl EightZones {
    ghost use Rattle.coincidence.specs.ZoneMasks.{TellsZonesFrom};

    /// The zones of the eight points from a place on, if all stand in that of the first one or of the last.
    pub fn from_place(points: &[Point], zones: &[Zone], first: u16) -> Option<EightZones>
        requires { HaveZoneNumbers zones.now }
        ensures { IfSome result (λ found. TellsZonesFrom points.now zones.now first found) }
    {
        let own = mask_at(points, zones, first as usize)?;
        let other = mask_at(points, zones, first as usize + 7)?;
        let mut others = 0;
        for k in 0..8 {
            let mask = mask_at(points, zones, first as usize + k as usize)?;
            let is_other = is_second(mask, own, other)?;
            others = with_bit_8(others, k, is_other);
        }
        Some(EightZones {
            zones: own,
            others,
            other_zones: other,
        })
    }
}

ghost use Rattle.coincidence.specs.ZoneMasks.{IsMaskAt};

// The mask of the zone of the point at a place, where there is one.
fn mask_at(points: &[Point], zones: &[Zone], place: usize) -> Option<u32>
    requires { HaveZoneNumbers zones.now }
    ensures { IfSome result (λ mask. IsMaskAt points.now zones.now place mask) }
{
    let point = points.get(place)?;
    let zone = zones.get(point.zone as usize)?;
    Some(one_bit(zone.number, true))
}

ghost use Rattle.std.specs.Prelude.{if◌then◌else◌};

// Of a mask that is one of two, whether it is the second one and not the first.
fn is_second(mask: u32, first: u32, second: u32) -> Option<bool>
    ensures { IfSome result (λ is. mask ≡ (if is then second else first)) }
{
    if mask == first {
        return Some(false);
    }
    if mask == second {
        return Some(true);
    }
    None
}
