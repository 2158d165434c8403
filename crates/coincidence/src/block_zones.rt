ghost use Rattle.std.specs.Prelude.{◌≡◌, IfSome};

use crate::eight_zones::EightZones;
use answer_lanes::Told;
use site_types::{Point, Zone};

/// What alarms of the points of a block tell that confirm and release the zones of these points, where those of each
/// eight stand in no more than two.
#[derive(Clone, Copy)]
pub struct BlockZones {
    /// The place of the first point of each eight.
    pub firsts: [u16; 4],
    /// What those of each eight tell of the zone of its first point.
    pub told: [Told; 4],
    /// Which of each eight tell plainly of another zone instead.
    pub others: [u8; 4],
    /// These other zones, bit `number - 1`.
    pub other_zones: [u32; 4],
}

impl BlockZones {
    ghost use Rattle.coincidence.specs.ZoneMasks.{HaveZoneNumbers, TellsBlockZones};

    /// The zones of a block by the first places of its eights, if the points of each stand in no more than two.
    pub fn of_block(points: &[Point], zones: &[Zone], firsts: &[u16; 4]) -> Option<BlockZones>
        requires { HaveZoneNumbers zones.now }
        ensures { IfSome result (λ found. TellsBlockZones points.now zones.now found) }
    {
        let first = EightZones::from_place(points, zones, firsts[0])?;
        let second = EightZones::from_place(points, zones, firsts[1])?;
        let third = EightZones::from_place(points, zones, firsts[2])?;
        let fourth = EightZones::from_place(points, zones, firsts[3])?;
        Some(BlockZones {
            firsts: *firsts,
            told: [
                plainly(first.zones),
                plainly(second.zones),
                plainly(third.zones),
                plainly(fourth.zones),
            ],
            others: [first.others, second.others, third.others, fourth.others],
            other_zones: [
                first.other_zones,
                second.other_zones,
                third.other_zones,
                fourth.other_zones,
            ],
        })
    }
}

ghost use Rattle.coincidence.specs.ZoneMasks.{told_plainly};

// What is told of zones that are confirmed and released, and not by hand.
fn plainly(zones: u32) -> Told
    ensures { result ≡ told_plainly zones }
{
    Told {
        counted: zones,
        confirmed: zones,
        manual: 0,
        released: zones,
    }
}
