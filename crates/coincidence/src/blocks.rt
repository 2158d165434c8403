//! Runs of blocks: taken eight by eight, or passed over at once.

ghost use Rattle.std.specs.Prelude.{◌≡◌, ◌<◌, ◌≤◌, ◌+◌, [], ◌∷◌, IfSome, false, true};
ghost use Rattle.answer_lanes.specs.Blocks.{block_answer_at};
ghost use Rattle.answer_lanes.specs.Points.{answer_at};
ghost use Rattle.answer_lanes.specs.Runs.{front_of, items_of};

use crate::decide::Decide;
use crate::rules::{plain_block, quiet_block, telling_block};
use answer_lanes::{AnswerBlock, AnswerGroup, FindingBlock, Lane, Run, joined};

impl Decide {
    ghost use Rattle.coincidence.specs.Changes.{CanTakeAnswerRun, CanTakeRunOf, TakesAnswerRun, TakesRunOf};
    ghost use Rattle.coincidence.specs.GoingOn.{AreGoingOnIn};
    ghost use Rattle.coincidence.specs.Steady.{AreLeftIn, AreStillIn, HasNumberedPoints, IsQuietBlock, all_of_block};

    // Puts the findings of a run of a block whose answers change nothing of what is kept. Tells whether it is such a
    // run, and leaves any other one as it is.
    pub(crate) fn passes_at_once(
        &self,
        run: &Run<AnswerBlock>,
        findings: &mut Lane<FindingBlock>,
    ) -> bool
        requires { CanTakeRunOf block_answer_at self.now run.now findings.old }
        ensures passed { result ≡ true
            → TakesRunOf block_answer_at self.now run.now findings.old self.now findings.new }
        ensures other { result ≡ false → findings.new ≡ findings.old }
    {
        if run.taken == 0 && run.count == 32 {
            return self.passes_block(&run.first, findings);
        }
        self.passes_part(run, findings)
    }

    // Puts the findings of a run within one eight of a block whose answers change nothing of what is kept. Tells
    // whether it is such a run, and leaves any other one as it is. It stands apart from the way of whole blocks, so
    // that it need not share registers with it.
    #[inline(never)]
    fn passes_part(&self, run: &Run<AnswerBlock>, findings: &mut Lane<FindingBlock>) -> bool
        requires { CanTakeRunOf block_answer_at self.now run.now findings.old }
        ensures passed { result ≡ true
            → TakesRunOf block_answer_at self.now run.now findings.old self.now findings.new }
        ensures other { result ≡ false → findings.new ≡ findings.old }
    {
        let eight = first_eight(run);
        if eight.count < run.count {
            return false;
        }
        self.passes(&eight, findings)
    }

    // Puts the findings of a whole block whose answers change nothing of what is kept, in one step. Tells whether it is
    // such a block, and leaves any other one as it is.
    fn passes_block(&self, block: &AnswerBlock, findings: &mut Lane<FindingBlock>) -> bool
        requires { CanTakeRunOf block_answer_at self.now (all_of_block block.now) findings.old }
        ensures passed { result ≡ true
            → TakesRunOf block_answer_at self.now (all_of_block block.now) findings.old self.now
            findings.new }
        ensures other { result ≡ false → findings.new ≡ findings.old }
    {
        if !has_numbers(block) {
            return false;
        }
        let number = self.going_on.number_of(&block.firsts);
        if is_quiet(block) && self.all_rest(number, block) {
            findings.put_run(Run {
                first: quiet_block(block),
                taken: 0,
                count: 32,
            });
            return true;
        }
        self.passes_heard(number, block, findings)
    }

    // Whether the quiet answers of a block are all of points at rest.
    #[inline(always)]
    fn all_rest(&self, number: usize, block: &AnswerBlock) -> bool
        requires numbers { HasNumberedPoints block.now }
        requires quiet { IsQuietBlock block.now }
        ensures { result ≡ true → AreLeftIn self.now block.now }
    {
        self.points.resting_in(number, &block.firsts) == u32::MAX
    }

    // Puts the findings of a whole block, plain or with alarms that go on, whose answers change nothing of what is
    // kept, in one step. Tells whether it is such a block, and leaves any other one as it is. It stands apart from the
    // way of blocks that are all quiet and at rest, so that it need not share registers with it.
    #[inline(never)]
    fn passes_heard(
        &self,
        number: usize,
        block: &AnswerBlock,
        findings: &mut Lane<FindingBlock>,
    ) -> bool
        requires numbers { HasNumberedPoints block.now }
        requires can { CanTakeRunOf block_answer_at self.now (all_of_block block.now) findings.old }
        ensures passed { result ≡ true
            → TakesRunOf block_answer_at self.now (all_of_block block.now) findings.old self.now
            findings.new }
        ensures other { result ≡ false → findings.new ≡ findings.old }
    {
        let changing = !self.still_in(number, block);
        if changing == 0 {
            findings.put_run(Run {
                first: plain_block(block),
                taken: 0,
                count: 32,
            });
            return true;
        }
        if !self.all_go_on_in(number, block, changing) {
            return false;
        }
        let Some(zones) = self.told.at(number, &block.firsts) else {
            return false;
        };
        findings.put_run(Run {
            first: telling_block(block, zones),
            taken: 0,
            count: 32,
        });
        true
    }

    // Which of the answers of a block leave what is kept of their points as it is, a bit for each. Where none is silent
    // it need not be read which points stay missing.
    #[inline(always)]
    pub(crate) fn still_in(&self, number: usize, block: &AnswerBlock) -> u32
        requires { HasNumberedPoints block.now }
        ensures { AreStillIn self.now block.now result }
    {
        let alarms = joined(&block.alarms);
        let silents = joined(&block.silents);
        let resting = self.points.resting_in(number, &block.firsts);
        if silents == 0 {
            return resting & !alarms;
        }
        let missing = self.points.missing_in(number, &block.firsts);
        (resting & !silents | missing & silents) & !alarms
    }

    // Whether those answers of a block of which the bits of a word tell, eight for each eight, are all alarms that go
    // on.
    #[inline(always)]
    fn all_go_on_in(&self, number: usize, block: &AnswerBlock, word: u32) -> bool
        requires { HasNumberedPoints block.now }
        ensures { result ≡ true → AreGoingOnIn self.now block.now word }
    {
        if block.stamp.0 < self.since.0 {
            return false;
        }
        let marked = self.going_on.eights_at(number, &block.firsts) & joined(&block.alarms);
        word & !marked == 0
    }

    // Takes the answers of a run of a block, one eight behind the other, and puts one finding for each.
    pub(crate) fn take_eights(&mut self, run: &Run<AnswerBlock>, findings: &mut Lane<FindingBlock>)
        requires { CanTakeRunOf block_answer_at self.old run.now findings.old }
        ensures { TakesRunOf block_answer_at self.old run.now findings.old self.new findings.new }
    {
        let mut left = *run;
        while left.count > 0 {
            let eight = first_eight(&left);
            self.take_eight(&eight, findings);
            left.taken += eight.count;
            left.count -= eight.count;
        }
    }

    // Takes the answers of a run within a group of eight, and puts one finding for each.
    fn take_eight(&mut self, run: &Run<AnswerGroup>, findings: &mut Lane<FindingBlock>)
        requires { CanTakeAnswerRun self.old run.now findings.old }
        ensures { TakesAnswerRun self.old run.now findings.old self.new findings.new }
    {
        if !self.passes(run, findings) {
            self.take_run(run, findings);
        }
    }
}

// Those first answers of a run of a block that stand in one eight.
fn first_eight(run: &Run<AnswerBlock>) -> Run<AnswerGroup>
    ensures items { items_of answer_at result
        ≡ items_of block_answer_at (front_of result.count run.now) }
    ensures few { result.count ≤ run.now.count }
    ensures some { 0 < run.now.count → 0 < result.count }
    ensures eight { result.taken + result.count ≤ 8 }
{
    let taken = run.taken % 8;
    Run {
        first: run.first.eight(run.taken / 8),
        taken,
        count: run.count.min(8 - taken),
    }
}

ghost use Rattle.coincidence.specs.Steady.{HasNumberedPoints, IsQuietBlock};

/// Whether the points of each eight of a block have different numbers.
pub fn has_numbers(block: &AnswerBlock) -> bool
    ensures { result ≡ true → HasNumberedPoints block.now }
{
    let [first, second, third, fourth] = block.firsts;
    let most = u16::MAX - 8;
    first <= most && second <= most && third <= most && fourth <= most
}

// Whether all answers of a block are quiet.
fn is_quiet(block: &AnswerBlock) -> bool
    ensures { result ≡ true → IsQuietBlock block.now }
{
    block.alarms == [0, 0, 0, 0] && block.silents == [0, 0, 0, 0]
}
