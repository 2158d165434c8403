//! What a run of answers changes, and what it means.

ghost use Rattle.std.specs.Prelude.{◌≡◌, ◌≤◌, All, false, length, true};
ghost use Rattle.tick_units.specs.Lane.{HasRoom};
ghost use Rattle.answer_lanes.specs.Blocks.{block_answer_at};
ghost use Rattle.answer_lanes.specs.Runs.{HasShortCount, HoldsItems, all_items};

use crate::bits::{bits_from, first_bits, lowest_bit};
use crate::decide::Decide;
use crate::gathering::{gather, gather_at, put_eight};
use crate::rules::plain_group;
use answer_lanes::{AnswerBlock, AnswerGroup, FindingBlock, Lane, Run};
use site_types::with_bit_8;

impl Decide {
    ghost use Rattle.coincidence.specs.Changes.{CanTakeAnswerRun, CanTakeRuns, PutsFindings, TakesAnswers};
    ghost use Rattle.coincidence.specs.Changes.{TakesAnswerRun, TakesFirstRuns};
    ghost use Rattle.coincidence.specs.Resting.{AreStill, IsWithinEight, TellsChanging};
    ghost use Rattle.coincidence.specs.Stands.{CanTake};

    // Takes the answers of runs, one run after the other, and puts one finding for each.
    pub(crate) fn take_runs(&mut self, runs: &[Run<AnswerBlock>], findings: &mut Lane<FindingBlock>)
        requires runs { All HoldsItems runs.now }
        requires room { HasRoom findings.old (length (all_items block_answer_at runs.now)) }
        requires may { CanTake self.old (all_items block_answer_at runs.now) }
        ensures taken { TakesAnswers self.old (all_items block_answer_at runs.now) self.new }
        ensures findings { PutsFindings self.old (all_items block_answer_at runs.now) findings.old
            findings.new }
    {
        let mut left = self.pass_steady(runs, findings);
        while let [run, rest @ ..] = left {
            self.take_block(run, findings);
            left = self.pass_steady(rest, findings);
        }
    }

    // Puts the findings of the first runs, as long as no answer of a run changes anything of what is kept, and answers
    // the runs behind them. This loop stands apart from the slow ways, so that it need not share registers with them.
    fn pass_steady<'a>(
        &self,
        runs: &'a [Run<AnswerBlock>],
        findings: &mut Lane<FindingBlock>,
    ) -> &'a [Run<AnswerBlock>]
        requires { CanTakeRuns block_answer_at self.now runs.now findings.old }
        ensures { TakesFirstRuns block_answer_at self.now runs.now result.now findings.old self.now
            findings.new }
    {
        let mut left = runs;
        while let [run, rest @ ..] = left {
            if !self.passes_at_once(run, findings) {
                return left;
            }
            left = rest;
        }
        left
    }

    // Puts the findings of a run within a group of eight whose answers change nothing of what is kept: in one step, or
    // one for each zone. Tells whether it is such a run, and leaves any other one as it is.
    pub(crate) fn passes(&self, run: &Run<AnswerGroup>, findings: &mut Lane<FindingBlock>) -> bool
        requires { CanTakeAnswerRun self.now run.now findings.old }
        ensures passed { result ≡ true
            → TakesAnswerRun self.now run.now findings.old self.now findings.new }
        ensures other { result ≡ false → findings.new ≡ findings.old }
    {
        if !is_within_eight(run) {
            return false;
        }
        let changing = self.changing_bits(run);
        if changing == 0 {
            let told = Run {
                first: plain_group(&run.first),
                taken: run.taken,
                count: run.count,
            };
            put_eight(told, findings);
            return true;
        }
        if !self.all_go_on(run, changing) {
            return false;
        }
        self.tell_going_on(run, changing, findings);
        true
    }

    // Takes the answers of a run one by one, all of them or, within a group of eight, those that may change what is
    // kept of their points. One finding is put for each answer.
    pub(crate) fn take_run(&mut self, run: &Run<AnswerGroup>, findings: &mut Lane<FindingBlock>)
        requires { CanTakeAnswerRun self.old run.now findings.old }
        ensures { TakesAnswerRun self.old run.now findings.old self.new findings.new }
    {
        if is_within_eight(run) {
            let changing = self.changing_bits(run);
            self.take_changing(run, changing, findings);
        } else {
            self.take_each(run, findings);
        }
    }

    // Takes the answers of a run one by one.
    fn take_each(&mut self, run: &Run<AnswerGroup>, findings: &mut Lane<FindingBlock>)
        requires { CanTakeAnswerRun self.old run.now findings.old }
        ensures { TakesAnswerRun self.old run.now findings.old self.new findings.new }
    {
        let mut found = Run::none();
        for place in run.taken..run.taken + run.count {
            let finding = self.take(&run.item(place));
            gather(finding, &mut found, findings);
        }
        put_eight(found, findings);
    }

    // Takes the answers of a run within a group of eight: one by one those that may change what is kept of their
    // points, by these bits. The others are told of as plain.
    fn take_changing(
        &mut self,
        run: &Run<AnswerGroup>,
        changing: u8,
        findings: &mut Lane<FindingBlock>,
    )
        requires within { IsWithinEight run.now }
        requires tells { TellsChanging self.old run.now changing }
        requires can { CanTakeAnswerRun self.old run.now findings.old }
        ensures { TakesAnswerRun self.old run.now findings.old self.new findings.new }
    {
        let mut found = Run {
            first: plain_group(&run.first),
            taken: run.taken,
            count: 0,
        };
        let mut left = changing;
        let mut known = None;
        while left != 0 {
            let bit = lowest_bit(left);
            let place = run.taken + bit;
            found.count = place - found.taken;
            let finding = self.take_near(&run.item(place), &mut known);
            gather_at(&finding, &run.first, &mut found, findings);
            left = with_bit_8(left, bit, false);
        }
        found.count = run.taken + run.count - found.taken;
        put_eight(found, findings);
    }

    // Which of the answers of a run within a group of eight may change what is kept of their points, a bit for each.
    #[inline(always)]
    pub(crate) fn changing_bits(&self, run: &Run<AnswerGroup>) -> u8
        requires { IsWithinEight run.now }
        ensures { TellsChanging self.now run.now result }
    {
        let still = self.still_bits(&run.first);
        first_bits(run.count) & !bits_from(still, run.taken)
    }

    // Which of the first eight answers of a group leave what is kept of their points as it is, a bit for each. Where
    // none is silent it need not be read which points stay missing.
    fn still_bits(&self, answers: &AnswerGroup) -> u8
        requires { answers.now.point ≤ 65527 }
        ensures { AreStill self.now answers.now result }
    {
        let first = answers.point as usize;
        let resting = self.points.resting_from(first);
        if answers.silents == 0 {
            return resting & !answers.alarms_from(0);
        }
        answers.matching_bits(0, resting, self.points.missing_from(first))
    }
}

ghost use Rattle.coincidence.specs.Resting.{IsWithinEight};

// Whether the answers of a run are among the first eight of their group, and of points with different numbers.
fn is_within_eight(run: &Run<AnswerGroup>) -> bool
    requires { HasShortCount run.now }
    ensures { result ≡ true → IsWithinEight run.now }
{
    run.taken + run.count <= 8 && run.first.point <= u16::MAX - 8
}
