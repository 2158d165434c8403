//! What findings tell of zones.

ghost use Rattle.std.specs.Prelude.{◌≡◌, ◌↔◌, ◌+◌, ◌<◌, ◌≤◌, ℕ, IfSome, None, false, true};
ghost use Rattle.site_types.specs.Bits.{has_bit};
ghost use Rattle.answer_lanes.specs.Runs.{HasShortCount};
ghost use Rattle.panel_conditions.specs.Parts.{ArePlain, HasTelling, IsPlain, TellsEightPlainly, IsShown};
ghost use Rattle.panel_conditions.specs.Parts.{block_confirms, eight_confirms, told_finding as telling, told_by};
ghost use Rattle.panel_conditions.specs.Told.{group_run, others_of, own_of};

use crate::next_bit::lowest_bit;
use crate::signs::Signs;
use answer_lanes::{FindingBlock, FindingEight, FindingGroup, Run, Told};
use coincidence_rules::Finding;
use tick_units::Tick;

/// What findings to an asking tell of zones, as a finding of no point in particular.
pub fn told_finding(stamp: Tick, told: &Told) -> Finding
    ensures { result ≡ telling stamp told.now }
{
    Finding {
        stamp,
        point: 0,
        counted: told.counted,
        confirmed: told.confirmed,
        manual: told.manual,
        released: told.released,
        missing: false,
    }
}

/// Whether an answer of a detector counted, confirmed and released each zone of which is told, and no more is told.
pub fn is_plain(told: &Told) -> bool
    ensures { (result ≡ true) ↔ IsPlain told.now }
{
    told.manual == 0 && told.counted == told.confirmed && told.released == told.confirmed
}

/// The zones that a block's eights confirm, where each finding that tells of any tells of them plainly.
pub fn plain_zones(block: &FindingBlock) -> Option<u32>
    ensures plain { IfSome result (λ zones. ArePlain block.now
        × (zones ≡ block_confirms block.now)) }
    ensures other { result ≡ None → ¬ ArePlain block.now }
{
    let first = plain_in(block, 0)?;
    let second = plain_in(block, 1)?;
    let third = plain_in(block, 2)?;
    let fourth = plain_in(block, 3)?;
    Some(first | second | third | fourth)
}

// The zones that one of a block's eights confirms, where it tells of them plainly; none where it tells of none. Of the
// other zones it tells plainly in any case.
#[inline(always)]
fn plain_in(block: &FindingBlock, number: u8) -> Option<u32>
    requires { number < 4 }
    ensures plain { IfSome result (λ zones. TellsEightPlainly block.now number
        × (zones ≡ eight_confirms block.now number)) }
    ensures other { result ≡ None → ¬ TellsEightPlainly block.now number }
{
    let place = number as usize;
    let telling = block.telling[place];
    let others = telling & block.others[place];
    let other_zones = if others == 0 {
        0
    } else {
        block.other_zones[place]
    };
    if telling ^ others == 0 {
        return Some(other_zones);
    }
    let told = &block.told[place];
    if is_plain(told) {
        Some(told.confirmed | other_zones)
    } else {
        None
    }
}

/// The findings of an eight, of which those tell that tell of the zones of its group.
pub fn of_own_zones(eight: &FindingEight) -> Run<FindingGroup>
    ensures { result ≡ group_run (own_of eight.now) }
{
    let telling = eight.group.telling;
    Run {
        first: FindingGroup {
            telling: telling ^ (telling & eight.others),
            ..eight.group
        },
        taken: 0,
        count: 8,
    }
}

/// The findings of an eight, of which those tell that tell of its other zones.
pub fn of_other_zones(eight: &FindingEight) -> Run<FindingGroup>
    ensures { result ≡ group_run (others_of eight.now) }
{
    let zones = eight.other_zones;
    Run {
        first: FindingGroup {
            telling: eight.group.telling & eight.others,
            counted: zones,
            confirmed: zones,
            manual: 0,
            released: zones,
            ..eight.group
        },
        taken: 0,
        count: 8,
    }
}

/// Whether any of a run's findings tells of zones. Mostly the group's first that does is one of them.
pub fn tells_any(run: &Run<FindingGroup>) -> bool
    requires short { HasShortCount run.now }
    requires some { 0 < run.now.first.telling }
    ensures some { result ≡ true → HasTelling run.now }
    ensures none { result ≡ false → (k : ℕ) → k < run.now.count
        → has_bit run.now.first.telling (run.now.taken + k) ≡ false }
{
    let lowest = lowest_bit(run.first.telling as u32);
    lowest.wrapping_sub(run.taken) < run.count
        || run.first.first_telling(run.taken, run.count).is_some()
}

/// Whether a finding tells nothing but what is shown.
pub fn is_shown(finding: &Finding, signs: &Signs) -> bool
    ensures { result ≡ true → IsShown finding.now signs.now }
{
    finding.counted | finding.confirmed | signs.alarm == signs.alarm
        && finding.manual | signs.manual == signs.manual
        && finding.released | signs.released == signs.released
}

/// The zones of which a finding tells.
pub fn told(finding: &Finding) -> u32
    ensures { result ≡ told_by finding.now }
{
    finding.counted | finding.confirmed | finding.manual | finding.released
}
