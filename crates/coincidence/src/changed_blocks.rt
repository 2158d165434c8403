//! Whole blocks of which few answers change something of what is kept: their findings are put as one run.

ghost use Rattle.std.specs.Prelude.{◌≡◌, ◌≤◌, [], ◌∷◌, IfSome, None, false, true};
ghost use Rattle.answer_lanes.specs.Blocks.{block_answer_at};
ghost use Rattle.coincidence_rules.specs.Counted.{is_alarm};

use crate::bits::lowest_from;
use crate::block_findings::BlockFindings;
use crate::block_zones::BlockZones;
use crate::blocks::has_numbers;
use crate::decide::Decide;
use crate::plain_finding::PlainFinding;
use crate::plain_zone::PlainZone;
use answer_lanes::{AnswerBlock, FindingBlock, Lane, Run, Several, joined, parted};
use site_types::{Answer, Heard, with_bit_32};

impl Decide {
    ghost use Rattle.coincidence.specs.Changes.{CanTakeRunOf, TakesRunOf};
    ghost use Rattle.coincidence.specs.ChangedBlocks.{ArePassedIn, PassesTo, TakesFirst, TakesPlainly, first_of_block};
    ghost use Rattle.coincidence.specs.PlainZones.{IsKnown, IsOfPoint, KnowsZone};
    ghost use Rattle.coincidence.specs.Stands.{CanTake};
    ghost use Rattle.coincidence.specs.Steady.{HasNumberedPoints, all_of_block};
    ghost use Rattle.coincidence.specs.ZoneMasks.{HasBlock};

    // Takes the answers of a run of a block, and puts one finding for each: as one run where it is a whole block of
    // which it is known in which zones its points stand. It stands apart from the way of blocks that change nothing, so
    // that it need not share registers with it.
    #[inline(never)]
    pub(crate) fn take_block(&mut self, run: &Run<AnswerBlock>, findings: &mut Lane<FindingBlock>)
        requires { CanTakeRunOf block_answer_at self.old run.now findings.old }
        ensures { TakesRunOf block_answer_at self.old run.now findings.old self.new findings.new }
    {
        if !is_whole(run) {
            return self.take_eights(run, findings);
        }
        let number = self.going_on.number_of(&run.first.firsts);
        let Some(zones) = self.told.at(number, &run.first.firsts) else {
            return self.take_eights(run, findings);
        };
        let zones = *zones;
        self.take_whole(number, &run.first, &zones, findings);
    }

    // Takes the answers of a whole block, and puts one finding for each. From the first answer on that may tell
    // otherwise than plainly of the zone of its point it is taken eight by eight.
    fn take_whole(
        &mut self,
        number: usize,
        block: &AnswerBlock,
        zones: &BlockZones,
        findings: &mut Lane<FindingBlock>,
    )
        requires numbers { HasNumberedPoints block.now }
        requires zones { HasBlock self.old.told.blocks.items block.now.firsts zones.now }
        requires can { CanTakeRunOf block_answer_at self.old (all_of_block block.now) findings.old }
        ensures { TakesRunOf block_answer_at self.old (all_of_block block.now) findings.old self.new
            findings.new }
    {
        let found = self.take_first(number, block);
        findings.put_run(Run {
            first: told_block(block, zones, &found),
            taken: 0,
            count: found.count,
        });
        if found.count == 32 {
            return;
        }
        let left = Run {
            first: *block,
            taken: found.count,
            count: 32 - found.count,
        };
        self.take_eights(&left, findings);
    }

    // Takes the answers of a block up to the first one that may tell otherwise than plainly of the zone of its point.
    // Which of them leave all that is kept as it is, is asked anew behind each one that doesn't.
    #[inline(always)]
    fn take_first(&mut self, number: usize, block: &AnswerBlock) -> BlockFindings
        requires numbers { HasNumberedPoints block.now }
        requires can { CanTake self.old (first_of_block block.now 32) }
        ensures { TakesFirst self.old block.now result self.new }
    {
        let mut found = heard_in(block);
        let mut known = None;
        while found.count < 32 {
            found.count = self.next_changing(number, block, found.count);
            if found.count == 32 {
                return found;
            }
            let answer = block.item_at(found.count);
            let Some(one) = self.take_plainly(&answer, &mut known) else {
                return found;
            };
            found.telling = with_bit_32(found.telling, found.count, one.telling);
            found.missing = with_bit_32(found.missing, found.count, one.missing);
            found.count += 1;
        }
        found
    }

    // The place of the first answer of a block, from a place on, that may change what is kept, or 32.
    #[inline(always)]
    fn next_changing(&self, number: usize, block: &AnswerBlock, place: u8) -> u8
        requires numbers { HasNumberedPoints block.now }
        requires place { place ≤ 32 }
        ensures { PassesTo self.now block.now place result }
    {
        lowest_from(!self.passing_in(number, block), place)
    }

    // Which answers of a block leave all that is kept as it is, a bit for each.
    #[inline(always)]
    fn passing_in(&self, number: usize, block: &AnswerBlock) -> u32
        requires { HasNumberedPoints block.now }
        ensures { ArePassedIn self.now block.now result }
    {
        let still = self.still_in(number, block);
        if block.stamp.0 < self.since.0 {
            return still;
        }
        still | self.going_on.eights_at(number, &block.firsts) & joined(&block.alarms)
    }

    // Takes an answer, unless it may tell otherwise than plainly of the zone of its point. What is known of a zone in
    // its tick is kept for the next answer of that tick.
    #[inline(always)]
    fn take_plainly(
        &mut self,
        answer: &Answer,
        known: &mut Option<PlainZone>,
    ) -> Option<PlainFinding>
        requires can { CanTake self.old (answer.now ∷ []) }
        requires known { KnowsZone answer.now.stamp.0 self.old known.old }
        ensures none { result ≡ None → self.new ≡ self.old }
        ensures some { IfSome result (λ found. TakesPlainly self.old answer.now found self.new) }
        ensures known { KnowsZone answer.now.stamp.0 self.new known.new }
    {
        match answer.heard {
            Heard::Alarm => {
                *known = self.zone_of(answer, *known);
                match *known {
                    Some(zone) => self.take_detector(answer, &zone),
                    None => None,
                }
            }
            Heard::Quiet | Heard::Silent => {
                *known = None;
                Some(self.take_other(answer))
            }
        }
    }

    // Takes an alarm of a point in such a zone, unless it is a manual one.
    #[inline(always)]
    fn take_detector(&mut self, answer: &Answer, zone: &PlainZone) -> Option<PlainFinding>
        requires can { CanTake self.old (answer.now ∷ []) }
        requires alarm { is_alarm answer.now.heard ≡ true }
        requires zone { IsOfPoint answer.now self.old zone.now }
        ensures none { result ≡ None → self.new ≡ self.old }
        ensures some { IfSome result (λ found. TakesPlainly self.old answer.now found self.new) }
        ensures known { IsKnown answer.now.stamp.0 self.new zone.now }
    {
        let point = self.points.at(answer.point as usize);
        if point.manual {
            return None;
        }
        let judgement = self.judge_in(answer, point, zone);
        self.note_in(answer, &judgement, zone);
        Some(PlainFinding {
            telling: judgement.counted,
            missing: false,
        })
    }

    // Takes an answer that is no alarm.
    #[inline(always)]
    fn take_other(&mut self, answer: &Answer) -> PlainFinding
        requires may { CanTake self.old (answer.now ∷ []) }
        requires quiet { is_alarm answer.now.heard ≡ false }
        ensures { TakesPlainly self.old answer.now result self.new }
    {
        self.note_quiet(answer);
        PlainFinding {
            telling: false,
            missing: self.points.at(answer.point as usize).is_missing(),
        }
    }
}

ghost use Rattle.coincidence.specs.ChangedBlocks.{AreHeardFrom, IsWholeBlock, TellPlainly};
ghost use Rattle.coincidence.specs.ZoneMasks.{ArePlainlyTold};

// Whether a run holds all of a block, and the points of each eight have different numbers.
#[inline(always)]
fn is_whole(run: &Run<AnswerBlock>) -> bool
    ensures { result ≡ true → IsWholeBlock run.now }
{
    if run.taken == 0 && run.count == 32 {
        return has_numbers(&run.first);
    }
    false
}

// What is heard in a block of which no answer is taken yet.
#[inline(always)]
fn heard_in(block: &AnswerBlock) -> BlockFindings
    ensures none { result.count ≡ 0 }
    ensures heard { AreHeardFrom block.now 0 result }
{
    let alarms = joined(&block.alarms);
    BlockFindings {
        count: 0,
        telling: alarms,
        missing: joined(&block.silents) & !alarms,
    }
}

// What the answers of a block mean of which so much is found.
#[inline(always)]
fn told_block(answers: &AnswerBlock, zones: &BlockZones, found: &BlockFindings) -> FindingBlock
    requires { ArePlainlyTold zones.now }
    ensures { TellPlainly answers.now zones.now found.now result }
{
    FindingBlock {
        stamp: answers.stamp,
        firsts: answers.firsts,
        missing: parted(found.missing),
        telling: parted(found.telling),
        told: zones.told,
        others: zones.others,
        other_zones: zones.other_zones,
    }
}
