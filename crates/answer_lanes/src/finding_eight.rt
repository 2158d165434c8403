ghost use Rattle.std.specs.Prelude.{◌≡◌};
ghost use Rattle.answer_lanes.specs.Blocks.{eight_finding_at, plainly};

use crate::finding_group::FindingGroup;
use crate::mask_bits::has_place;
use crate::several::Several;
use coincidence_rules::Finding;

/// The findings of eight points in one or two zones: those of a group, but for some that tell plainly of other zones.
/// To tell plainly is to count, confirm and release, and not by hand.
#[derive(Clone, Copy, Debug, Default)]
pub struct FindingEight {
    pub group: FindingGroup,
    /// Which of those that tell do so of the other zones: bit k for the point k places behind the group's first one.
    pub others: u8,
    /// These zones, bit `number - 1`.
    pub other_zones: u32,
}

impl From<FindingGroup> for FindingEight {
    ghost use Rattle.answer_lanes.specs.Blocks.{eight_of_group};

    fn from(group: FindingGroup) -> FindingEight
        ensures { result ≡ eight_of_group group }
    {
        FindingEight {
            group,
            others: 0,
            other_zones: 0,
        }
    }
}

impl Several for FindingEight {
    type Item = Finding;

    ghost item_at = { eight_finding_at };

    fn item_at(&self, place: u8) -> Finding {
        if has_place(self.others, place) {
            told_plainly(&self.group, self.other_zones).item_at(place)
        } else {
            self.group.item_at(place)
        }
    }

    fn one(item: Finding) -> FindingEight {
        FindingEight::from(FindingGroup::one(item))
    }
}

// The findings of a group, where those that tell do so plainly of these zones.
fn told_plainly(group: &FindingGroup, zones: u32) -> FindingGroup
    ensures { result ≡ plainly zones group.now }
{
    FindingGroup {
        counted: zones,
        confirmed: zones,
        manual: 0,
        released: zones,
        ..*group
    }
}
