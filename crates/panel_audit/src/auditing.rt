//! The verdict on a record and a text.

ghost use Rattle.std.specs.Prelude.{IfOk};
ghost use Rattle.site_types.specs.Valid.{IsValid};
ghost use Rattle.audit_rules.specs.Verdicts.{IsVerdictOn};
ghost use Rattle.cause_effect.specs.Stands.{IsPlanOf};
ghost use Rattle.panel_audit.specs.Texts.{JudgesText};

use crate::case::Case;
use crate::judge::Judge;
use crate::judging::judge_ticks;
use crate::opening::opened;
use crate::scan::Scan;
use audit_rules::{AuditRule, Verdict};
use cause_effect::Plan;
use face_reading::{TextRefusal, read_faces};
use face_text::Timeline;
use record_lines::Line;
use site_types::Site;
use std::alloc::Global;
use tick_events::TickEvents;
use tick_units::NoMemory;
use told_operations::{
    asked_operations, done_is_listed, done_operations, first_is_found, first_unfounded,
};
use whole_records::{RecordRefusal, read_record};

/// The verdict on the bytes of a record and those of a text, by a site and the plan of its markers: the record's
/// refusal comes first, then the text's first bad line, then the first rule that is broken.
///
/// # Errors
///
/// Where memory is refused.
pub fn audit(
    alloc: Global,
    site: &Site,
    plan: &Plan,
    lines: &[u8],
    text: &[u8],
) -> Result<Verdict, NoMemory>
    requires site { IsValid site.now }
    requires plan { IsPlanOf site.now plan.now }
    ensures { IfOk result (λ verdict. IsVerdictOn site.now lines.now text.now verdict) }
{
    let record = match read_record(alloc, site, lines) {
        Ok(record) => record,
        Err(RecordRefusal::Line(refusal)) => return Ok(Verdict::Record(refusal)),
        Err(RecordRefusal::NoMemory) => return Err(NoMemory),
    };
    match read_faces(alloc, site, text) {
        Ok(timeline) => judge_text(alloc, site, plan, record.as_slice(), &timeline),
        Err(TextRefusal::BadLine(line)) => Ok(Verdict::Text { line }),
        Err(TextRefusal::NoMemory) => Err(NoMemory),
    }
}

// The verdict on the lines of a record and what a text tells.
fn judge_text(
    alloc: Global,
    site: &Site,
    plan: &Plan,
    lines: &[Line],
    timeline: &Timeline,
) -> Result<Verdict, NoMemory>
    requires site { IsValid site.now }
    requires plan { IsPlanOf site.now plan.now }
    ensures { IfOk result (JudgesText site.now lines.now timeline.now) }
{
    let told = TickEvents::of_lines(alloc, lines)?;
    if timeline.last.0 != told.count() as u64 {
        return Ok(Verdict::Failed {
            tick: timeline.last.0,
            rule: AuditRule::Length,
            panel: 0,
            number: 0,
        });
    }
    let steps = timeline.steps.as_slice();
    let asked = asked_operations(alloc, site, lines)?;
    let done = done_operations(alloc, asked.as_slice(), steps)?;
    let unfounded = first_unfounded(alloc, asked.as_slice(), steps)?;
    done_is_listed();
    first_is_found();
    let kept = opened(timeline.opened.as_slice());
    let case = Case {
        site,
        plan,
        timeline,
        done: done.as_slice(),
    };
    let mut judge = Judge::new(alloc, &case, &kept)?;
    let mut scan = Scan::new(alloc, &case)?;
    Ok(judge_ticks(&case, &told, unfounded, &mut judge, &mut scan))
}
