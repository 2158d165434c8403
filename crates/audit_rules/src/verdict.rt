use crate::audit_rule::AuditRule;
use record_lines::Refusal;

/// What an audit of a text against its record comes to.
#[derive(Clone, Copy, Debug, PartialEq, Eq)]
pub enum Verdict {
    /// No rule is broken.
    Passed {
        ticks: u64,
    },
    /// The first rule that is broken. `panel` is the one that shows or doesn't show a zone, or the output's own;
    /// `number` is the number of the zone, which may be another panel's, or of the output. Both are 0 where the rule
    /// speaks of neither.
    Failed {
        tick: u64,
        rule: AuditRule,
        panel: u8,
        number: u8,
    },
    /// The record is refused, or ends without its last line.
    Record(Refusal),
    /// The text is that of no run: its first bad line.
    Text {
        line: u64,
    },
}
