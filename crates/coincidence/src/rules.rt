ghost use Rattle.std.specs.Prelude.{◌≡◌, ◌≤◌, not, ◌&&◌, ◌||◌};
ghost use Rattle.coincidence.specs.Parts.{switch_at};
ghost use Rattle.coincidence_rules.specs.Kept.{after as after_tick, makes_pairs as makes_pairs_in};
ghost use Rattle.coincidence_rules.specs.Counted.{is_alarm};

use crate::block_zones::BlockZones;
use answer_lanes::{AnswerBlock, AnswerGroup, FindingBlock, FindingGroup, Told, joined, parted};
use coincidence_rules::Finding;
use site_types::{Answer, Heard, Rule};
use tick_units::{Switch, Tick};

pub fn counts_unless(heard: Heard, off: bool, zone_off: bool, test: bool) -> bool
    ensures { result ≡ is_alarm heard && not (off || (zone_off || test)) }
{
    match heard {
        Heard::Alarm => !(off || zone_off || test),
        Heard::Quiet | Heard::Silent => false,
    }
}

/// Whether an answer may make a pair with others of its zone.
pub fn may_pair(counted: bool, manual: bool, rule: Rule) -> bool
    ensures { result ≡ counted && makes_pairs_in rule (not manual) }
{
    counted && makes_pairs(rule, !manual)
}

// Whether answers of a detector, or of a call point, make pairs in a zone of a type.
fn makes_pairs(rule: Rule, detector: bool) -> bool
    ensures { result ≡ makes_pairs_in rule detector }
{
    match rule {
        Rule::Plain => false,
        Rule::A { .. } | Rule::B { .. } => detector,
        Rule::C => true,
    }
}

/// The value of a switch at a tick that isn't before its own.
pub fn is_on(switch: &Switch, x: Tick) -> bool
    requires { switch.now.since.0 ≤ x.0 }
    ensures { result ≡ switch_at x.0 switch.entry.now }
{
    switch.at(x)
}

pub fn after(tick: Tick, stamp: Option<Tick>) -> Option<Tick>
    ensures { result ≡ after_tick tick.0 stamp }
{
    match stamp {
        Some(stamp) => if tick.0 < stamp.0 { Some(stamp) } else { None },
        None => None,
    }
}

ghost use Rattle.std.specs.Prelude.{ℕ};
ghost use Rattle.answer_lanes.specs.Points.{answer_at, finding_at};
ghost use Rattle.coincidence.specs.Resting.{plain_of};

/// What an answer means that tells of no zone, of a point that is missing where it is silent.
pub fn plain_finding(answer: &Answer) -> Finding
    ensures { result ≡ plain_of answer.now }
{
    Finding {
        stamp: answer.stamp,
        point: answer.point,
        counted: 0,
        confirmed: 0,
        manual: 0,
        released: 0,
        missing: matches!(answer.heard, Heard::Silent),
    }
}

/// What the answers of a group mean that tell of no zone, of points that are missing where they are silent.
pub fn plain_group(answers: &AnswerGroup) -> FindingGroup
    ensures plain { (k : ℕ) → finding_at result k ≡ plain_of (answer_at answers.now k) }
    ensures none { result.telling ≡ 0 }
{
    FindingGroup {
        stamp: answers.stamp,
        point: answers.point,
        missing: answers.silent_bits(),
        telling: 0,
        counted: 0,
        confirmed: 0,
        manual: 0,
        released: 0,
    }
}

ghost use Rattle.coincidence.specs.Steady.{IsPlainBlock, IsQuietBlock};

/// What the quiet answers of a block mean: they tell of no zone, and of no missing point.
pub fn quiet_block(answers: &AnswerBlock) -> FindingBlock
    requires { IsQuietBlock answers.now }
    ensures { IsPlainBlock answers.now result }
{
    plain_with(answers, [0, 0, 0, 0])
}

/// What the answers of a block mean that tell of no zone, of points that are missing where they are silent.
pub fn plain_block(answers: &AnswerBlock) -> FindingBlock
    ensures { IsPlainBlock answers.now result }
{
    plain_with(answers, silent_in(answers))
}

ghost use Rattle.coincidence.specs.Steady.{AreSilentIn};

// Which answers of each eight of a block are silent.
#[inline(always)]
fn silent_in(answers: &AnswerBlock) -> [u8; 4]
    ensures { AreSilentIn answers.now result }
{
    parted(joined(&answers.silents) & !joined(&answers.alarms))
}

// What the answers of a block mean that tell of no zone, where these bits of each eight are set of those that are
// silent.
fn plain_with(answers: &AnswerBlock, missing: [u8; 4]) -> FindingBlock
    requires { AreSilentIn answers.now missing }
    ensures { IsPlainBlock answers.now result }
{
    let none = Told {
        counted: 0,
        confirmed: 0,
        manual: 0,
        released: 0,
    };
    FindingBlock {
        stamp: answers.stamp,
        firsts: answers.firsts,
        missing,
        telling: [0, 0, 0, 0],
        told: [none, none, none, none],
        others: [0, 0, 0, 0],
        other_zones: [0, 0, 0, 0],
    }
}

ghost use Rattle.coincidence.specs.GoingOn.{telling_of};

/// What the answers of a group mean where its alarms are those of detectors in zones that each of them confirms and
/// releases, and the other answers tell of no zone.
pub fn telling_group(answers: &AnswerGroup, zones: u32) -> FindingGroup
    ensures { (k : ℕ) → finding_at result k ≡ telling_of zones (answer_at answers.now k) }
{
    FindingGroup {
        stamp: answers.stamp,
        point: answers.point,
        missing: answers.silent_bits(),
        telling: answers.alarms,
        counted: zones,
        confirmed: zones,
        manual: 0,
        released: zones,
    }
}

ghost use Rattle.coincidence.specs.GoingOn.{TellEach};
ghost use Rattle.coincidence.specs.ZoneMasks.{ArePlainlyTold};

/// What the answers of a block mean where each of its alarms confirms and releases the zone of its point, and the other
/// answers tell of no zone.
#[inline(always)]
pub fn telling_block(answers: &AnswerBlock, zones: &BlockZones) -> FindingBlock
    requires { ArePlainlyTold zones.now }
    ensures { TellEach answers.now zones.now result }
{
    FindingBlock {
        stamp: answers.stamp,
        firsts: answers.firsts,
        missing: silent_in(answers),
        telling: answers.alarms,
        told: zones.told,
        others: zones.others,
        other_zones: zones.other_zones,
    }
}
