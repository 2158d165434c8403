//! The lines that tell a verdict.

ghost use Rattle.std.specs.Prelude.{◌≡◌, ◌≤◌, length};
ghost use Rattle.audit_command.specs.Lines.{bad_line as bad_words, failed_line as failed_words};
ghost use Rattle.audit_command.specs.Lines.{passed_line as passed_words, rule_word as word_of_rule};

use arrayvec::ArrayString;
use itoa::Buffer;
use panel_audit::AuditRule;

// No rule is broken in so many ticks.
pub(crate) fn passed_line(ticks: u64) -> ArrayString<64>
    ensures { result.bytes ≡ passed_words ticks }
{
    let mut digits = Buffer::new();
    let mut line = ArrayString::new();
    line.push_str("passed ticks ");
    line.push_str(digits.format(ticks));
    line.push_str("\n");
    line
}

// The first rule that is broken, and where.
pub(crate) fn failed_line(tick: u64, rule: AuditRule, panel: u8, number: u8) -> ArrayString<128>
    ensures { result.bytes ≡ failed_words tick rule panel number }
{
    let mut digits = Buffer::new();
    let mut line = ArrayString::new();
    line.push_str("failed tick ");
    line.push_str(digits.format(tick));
    line.push_str(" rule ");
    line.push_str(rule_word(rule));
    line.push_str(" panel ");
    line.push_str(digits.format(panel));
    line.push_str(" number ");
    line.push_str(digits.format(number));
    line.push_str("\n");
    line
}

fn rule_word(rule: AuditRule) -> &'static str
    ensures word { result.now ≡ word_of_rule rule }
    ensures short { length result.now ≤ 10 }
{
    match rule {
        AuditRule::Length => "length",
        AuditRule::Answer => "answer",
        AuditRule::Indication => "indication",
        AuditRule::Output => "output",
        AuditRule::Zone => "zone",
        AuditRule::Cause => "cause",
    }
}

// The first line that no text has there.
pub(crate) fn bad_line(number: u64) -> ArrayString<64>
    ensures { result.bytes ≡ bad_words number }
{
    let mut digits = Buffer::new();
    let mut line = ArrayString::new();
    line.push_str("refused text ");
    line.push_str(digits.format(number));
    line.push_str("\n");
    line
}
