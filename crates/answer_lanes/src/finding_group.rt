ghost use Rattle.std.specs.Prelude.{◌≡◌, ◌<◌, ◌+◌, ◌≤◌, ◌==◌, ℕ, IfSome, IfNone, false, if◌then◌else◌, true};
ghost use Rattle.answer_lanes.specs.Points.{finding_at};
ghost use Rattle.site_types.specs.Bits.{has_bit};

use crate::mask_bits::{first_bit, has_place, with_place};
use crate::several::Several;
use coincidence_rules::Finding;
use tick_units::Tick;

/// The findings of answers to one asking, of points whose places follow one another. Those that tell of zones tell the
/// same of them. Those past the eighth tell of no zone, and of no missing point.
#[derive(Clone, Copy, Debug, Default)]
pub struct FindingGroup {
    /// The tick in which the points were asked.
    pub stamp: Tick,
    /// The place of the first one.
    pub point: u16,
    /// Which of them are missing: bit k for the point k places behind the first one.
    pub missing: u8,
    /// Which of the findings tell of zones.
    pub telling: u8,
    /// What these tell, as a [`Finding`] has it.
    pub counted: u32,
    pub confirmed: u32,
    pub manual: u32,
    pub released: u32,
}

impl FindingGroup {
    ghost use Rattle.answer_lanes.specs.Groups.{CanHave, TellsLike};

    /// Whether the point at a place is missing.
    pub fn is_missing(&self, place: u8) -> bool
        ensures { result ≡ has_bit self.now.missing place }
    {
        has_place(self.missing, place)
    }

    /// Whether a finding can stand at a place: it is of the point there, and tells of zones nothing or what others do.
    pub fn can_have(&self, place: u8, finding: &Finding) -> bool
        ensures can { result ≡ true → CanHave place finding.now self.now }
        ensures must { CanHave place finding.now self.now → result ≡ true }
    {
        place < 8
            && finding.stamp == self.stamp
            && finding.point == self.point.saturating_add(place as u16)
            && (self.telling == 0 || tells_none(finding) || self.tells_same(finding))
    }

    // Whether a finding tells of zones what those tell that tell of any.
    fn tells_same(&self, finding: &Finding) -> bool
        ensures same { result ≡ true → TellsLike finding.now self.now }
        ensures each { TellsLike finding.now self.now → result ≡ true }
    {
        finding.counted == self.counted
            && finding.confirmed == self.confirmed
            && finding.manual == self.manual
            && finding.released == self.released
    }

    /// Sets what is told of the point at a place.
    pub fn set(&mut self, place: u8, finding: &Finding)
        requires { CanHave place finding.now self.old }
        ensures { (k : ℕ) → finding_at self.new k
            ≡ (if k == place then finding.now else finding_at self.old k) }
    {
        self.missing = with_place(self.missing, place, finding.missing);
        if tells_none(finding) {
            self.telling = with_place(self.telling, place, false);
            return;
        }
        self.telling = with_place(self.telling, place, true);
        self.counted = finding.counted;
        self.confirmed = finding.confirmed;
        self.manual = finding.manual;
        self.released = finding.released;
    }

    /// The place of the first of so many findings that tells of zones, from one on.
    pub fn first_telling(&self, from: u8, count: u8) -> Option<u8>
        ensures some { IfSome result (λ place. (from ≤ place) × (place < from + count)
            × (has_bit self.now.telling place ≡ true)) }
        ensures none { IfNone result
            ((k : ℕ) → k < count → has_bit self.now.telling (from + k) ≡ false) }
    {
        first_bit(self.telling, from, count)
    }
}

impl Several for FindingGroup {
    type Item = Finding;

    ghost item_at = { finding_at };

    fn item_at(&self, place: u8) -> Finding {
        let telling = has_place(self.telling, place);
        Finding {
            stamp: self.stamp,
            point: self.point.saturating_add(place as u16),
            counted: mask_if(telling, self.counted),
            confirmed: mask_if(telling, self.confirmed),
            manual: mask_if(telling, self.manual),
            released: mask_if(telling, self.released),
            missing: self.is_missing(place),
        }
    }

    fn one(item: Finding) -> FindingGroup {
        FindingGroup {
            stamp: item.stamp,
            point: item.point,
            missing: item.missing as u8,
            telling: 1,
            counted: item.counted,
            confirmed: item.confirmed,
            manual: item.manual,
            released: item.released,
        }
    }
}

ghost use Rattle.answer_lanes.specs.Groups.{TellsNone};
ghost use Rattle.answer_lanes.specs.Points.{mask_if as mask_where};

// Whether a finding tells of no zone.
fn tells_none(finding: &Finding) -> bool
    ensures none { result ≡ true → TellsNone finding.now }
    ensures some { TellsNone finding.now → result ≡ true }
{
    finding.counted == 0 && finding.confirmed == 0 && finding.manual == 0 && finding.released == 0
}

// A mask of zones where it is told, else none.
fn mask_if(told: bool, mask: u32) -> u32
    ensures { result ≡ mask_where told mask }
{
    if told { mask } else { 0 }
}
