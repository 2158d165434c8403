//! Verdicts in words.

use panel_audit::{AuditRule, Verdict};
use trial_cases::Lines;

/// Says a verdict.
pub(crate) fn say_verdict(lines: &mut Lines, verdict: Verdict) {
    match verdict {
        Verdict::Passed { ticks } => say_number(lines, "passed ", ticks),
        Verdict::Failed {
            tick,
            rule,
            panel,
            number,
        } => say_failed(lines, tick, rule, panel, number),
        Verdict::Record(refusal) => say_number(
            lines,
            "the record is refused at line ",
            refusal.line,
        ),
        Verdict::Text { line } => say_number(lines, "no text at line ", line),
    }
}

fn say_failed(lines: &mut Lines, tick: u64, rule: AuditRule, panel: u8, number: u8) {
    say_number(lines, "failed in tick ", tick);
    lines.say(rule_words(rule));
    say_number(lines, " at panel ", panel as u64);
    say_number(lines, " number ", number as u64);
}

fn say_number(lines: &mut Lines, words: &str, number: u64) {
    lines.say(words);
    lines.number(number);
}

fn rule_words(rule: AuditRule) -> &'static str {
    match rule {
        AuditRule::Length => ": another length",
        AuditRule::Answer => ": an answer",
        AuditRule::Indication => ": a zone isn't shown",
        AuditRule::Output => ": an output isn't on",
        AuditRule::Zone => ": a zone is shown",
        AuditRule::Cause => ": an output is on",
    }
}
