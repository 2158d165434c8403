//! Findings gathered to runs on their way into the lane.

ghost use Rattle.std.specs.Prelude.{◌≡◌, ◌∷◌, ◌+◌, ◌++◌, ◌<◌, ◌≤◌, [], length, ℕ};
ghost use Rattle.answer_lanes.specs.Points.{finding_at};
ghost use Rattle.answer_lanes.specs.Runs.{items_of};
ghost use Rattle.coincidence.specs.Resting.{IsFoundAt, IsPlainAt};
ghost use Rattle.tick_units.specs.Lane.{HasRoom, with_put};

use crate::rules::plain_group;
use answer_lanes::{AnswerGroup, FindingBlock, FindingGroup, Lane, Run};
use coincidence_rules::Finding;

/// Puts the findings of a run within a group of eight.
pub fn put_eight(run: Run<FindingGroup>, findings: &mut Lane<FindingBlock>)
    requires eight { run.taken + run.count ≤ 8 }
    requires room { HasRoom findings.old run.count }
    ensures { findings.new ≡ with_put findings.old (items_of finding_at run) }
{
    findings.put_run(Run {
        first: FindingBlock::from(run.first),
        taken: run.taken,
        count: run.count,
    });
}

/// Puts a finding behind those of a run. Where it can't stand with them, the run goes into the lane and another begins.
pub fn gather(finding: Finding, found: &mut Run<FindingGroup>, findings: &mut Lane<FindingBlock>)
    requires eight { found.old.taken + found.old.count ≤ 8 }
    requires room { HasRoom findings.old (length (items_of finding_at found.old)) }
    ensures put { with_put findings.new (items_of finding_at found.new)
        ≡ with_put findings.old (items_of finding_at found.old ++ finding ∷ []) }
    ensures eight { found.new.taken + found.new.count ≤ 8 }
{
    if found.push(&finding) {
        return;
    }
    put_eight(*found, findings);
    *found = Run::one(finding);
}

/// Puts a finding behind those of a run within a group of eight, of which the findings that follow are plain. Where it
/// can't stand with them, the run goes into the lane and another begins.
pub fn gather_at(
    finding: &Finding,
    answers: &AnswerGroup,
    found: &mut Run<FindingGroup>,
    findings: &mut Lane<FindingBlock>,
)
    requires place { found.old.taken + found.old.count < 8 }
    requires own { IsFoundAt (found.old.taken + found.old.count) answers.now finding.now }
    requires room { HasRoom findings.old (length (items_of finding_at found.old)) }
    ensures put { with_put findings.new (items_of finding_at found.new)
        ≡ with_put findings.old (items_of finding_at found.old ++ finding.now ∷ []) }
    ensures plain { (k : ℕ) → found.old.taken + found.old.count < k
        → IsPlainAt k answers.now found.old.first → IsPlainAt k answers.now found.new.first }
    ensures place { found.new.taken + found.new.count ≡ found.old.taken + found.old.count + 1 }
{
    let place = found.taken + found.count;
    if !found.first.can_have(place, finding) {
        put_eight(*found, findings);
        *found = Run {
            first: plain_group(answers),
            taken: place,
            count: 0,
        };
    }
    found.first.set(place, finding);
    found.count += 1;
}
