//! Judging the ticks of a record by a text, one after another.

ghost use Rattle.std.specs.Prelude.{◌≡◌, length};
ghost use Rattle.site_types.specs.Valid.{IsValid};
ghost use Rattle.cause_effect.specs.Stands.{IsPlanOf};
ghost use Rattle.panel_audit.specs.Ticks.{JudgesTicks, is_at};

use crate::case::Case;
use crate::judge::Judge;
use crate::scan::Scan;
use audit_rules::Verdict;
use tick_events::TickEvents;
use tick_units::Tick;

/// The verdict on the ticks of a record, with the first tick that has an unfounded answer.
pub(crate) fn judge_ticks(
    case: &Case,
    told: &TickEvents,
    unfounded: Option<Tick>,
    judge: &mut Judge,
    scan: &mut Scan,
) -> Verdict
    requires site { IsValid case.now.site.now }
    requires plan { IsPlanOf case.now.site.now case.now.plan.now }
    requires rows { length judge.old.rows.items ≡ length case.now.site.now.zones }
    ensures { JudgesTicks case.now.site.now case.now.timeline.now case.now.done.now told.now
        unfounded judge.old scan.old result }
{
    let count = told.count();
    for place in 0..count {
        let now = Tick(place as u64 + 1);
        let due = judge.take_tick(case, now, told.of_tick(place + 1));
        if let Some(broken) = scan.first_broken(case, judge, &due, is_now(unfounded, now)) {
            return Verdict::Failed {
                tick: now.0,
                rule: broken.rule,
                panel: broken.panel,
                number: broken.number,
            };
        }
    }
    Verdict::Passed {
        ticks: count as u64,
    }
}

fn is_now(unfounded: Option<Tick>, now: Tick) -> bool
    ensures { result ≡ is_at unfounded now.0 }
{
    match unfounded {
        None => false,
        Some(tick) => tick.0 == now.0,
    }
}
