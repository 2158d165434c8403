ghost use Rattle.std.specs.Prelude.{◌≡◌, slice_index_or};
ghost use Rattle.answer_lanes.specs.Blocks.{block_finding_at, eight_found};

use crate::finding_eight::FindingEight;
use crate::finding_group::FindingGroup;
use crate::several::Several;
use crate::told::Told;
use coincidence_rules::Finding;
use tick_units::Tick;

/// The findings of answers to one asking, of four eights of points, each as a [`FindingEight`] has them.
#[derive(Clone, Copy, Debug, Default)]
pub struct FindingBlock {
    /// The tick in which the points were asked.
    pub stamp: Tick,
    /// The place of the first point of each eight.
    pub firsts: [u16; 4],
    /// Which of each eight are missing: bit k for the point k places behind its first one.
    pub missing: [u8; 4],
    /// Which of the findings tell of zones.
    pub telling: [u8; 4],
    /// What those of each eight tell.
    pub told: [Told; 4],
    /// Which of those of each eight tell plainly of other zones instead.
    pub others: [u8; 4],
    /// These other zones, bit `number - 1`.
    pub other_zones: [u32; 4],
}

impl FindingBlock {
    /// One of the four eights, counted from 0. There is none behind the fourth.
    pub fn eight(&self, number: u8) -> FindingEight
        ensures { result ≡ eight_found self.now number }
    {
        let place = number as usize;
        if place >= 4 {
            return FindingEight::from(FindingGroup {
                stamp: self.stamp,
                ..FindingGroup::default()
            });
        }
        let told = self.told[place];
        FindingEight {
            group: FindingGroup {
                stamp: self.stamp,
                point: self.firsts[place],
                missing: self.missing[place],
                telling: self.telling[place],
                counted: told.counted,
                confirmed: told.confirmed,
                manual: told.manual,
                released: told.released,
            },
            others: self.others[place],
            other_zones: self.other_zones[place],
        }
    }
}

impl FindingBlock {
    ghost use Rattle.answer_lanes.specs.Blocks.{AreOfStamp};

    /// The findings of four eights that were asked in one tick.
    #[inline(always)]
    pub fn of(eights: &[FindingEight; 4]) -> FindingBlock
        requires { AreOfStamp eights.now }
        ensures first { eight_found result 0 ≡ slice_index_or eights.now 0 (eight_found result 0) }
        ensures second { eight_found result 1 ≡ slice_index_or eights.now 1 (eight_found result 1) }
        ensures third { eight_found result 2 ≡ slice_index_or eights.now 2 (eight_found result 2) }
        ensures fourth { eight_found result 3 ≡ slice_index_or eights.now 3 (eight_found result 3) }
    {
        let [a, b, c, d] = eights;
        FindingBlock {
            stamp: a.group.stamp,
            firsts: [a.group.point, b.group.point, c.group.point, d.group.point],
            missing: [
                a.group.missing,
                b.group.missing,
                c.group.missing,
                d.group.missing,
            ],
            telling: [
                a.group.telling,
                b.group.telling,
                c.group.telling,
                d.group.telling,
            ],
            told: [
                told_in(&a.group),
                told_in(&b.group),
                told_in(&c.group),
                told_in(&d.group),
            ],
            others: [a.others, b.others, c.others, d.others],
            other_zones: [a.other_zones, b.other_zones, c.other_zones, d.other_zones],
        }
    }
}

ghost use Rattle.answer_lanes.specs.Blocks.{group_tells};

// What the findings of a group tell of zones that tell of any.
#[inline(always)]
fn told_in(group: &FindingGroup) -> Told
    ensures { result ≡ group_tells group.now }
{
    Told {
        counted: group.counted,
        confirmed: group.confirmed,
        manual: group.manual,
        released: group.released,
    }
}

impl From<FindingGroup> for FindingBlock {
    ghost use Rattle.answer_lanes.specs.Blocks.{HasFirstFound, eight_of_group};

    /// The findings of one eight, the first one. The others have nothing.
    fn from(group: FindingGroup) -> FindingBlock
        ensures first { eight_found result 0 ≡ eight_of_group group }
        ensures others { HasFirstFound result }
    {
        FindingBlock {
            stamp: group.stamp,
            firsts: [group.point, 0, 0, 0],
            missing: [group.missing, 0, 0, 0],
            telling: [group.telling, 0, 0, 0],
            told: [
                told_in(&group),
                Told::default(),
                Told::default(),
                Told::default(),
            ],
            others: [0; 4],
            other_zones: [0; 4],
        }
    }
}

impl Several for FindingBlock {
    type Item = Finding;

    ghost item_at = { block_finding_at };

    fn item_at(&self, place: u8) -> Finding {
        self.eight(place / 8).item_at(place % 8)
    }

    fn one(item: Finding) -> FindingBlock {
        FindingBlock::from(FindingGroup::one(item))
    }
}
