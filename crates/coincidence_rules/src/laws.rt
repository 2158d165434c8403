//! Laws on what answers confirm: each is the contract of a function that does nothing.

ghost use Rattle.coincidence_rules.specs.Alarm.{InAlarmWhereConfirmed};
ghost use Rattle.coincidence_rules.specs.Laws.{FindingsTellCalls, FindingsTellConfirmed, FindingsTellCounted};
ghost use Rattle.coincidence_rules.specs.Laws.{FindingsTellReleased};

/// Findings, each by the answers taken up to its own, tell of a zone at any stamps what all answers together
/// confirm and release.
pub fn findings_tell()
    ensures confirmed { FindingsTellConfirmed }
    ensures released { FindingsTellReleased }
    ensures manual { FindingsTellCalls }
    ensures counted { FindingsTellCounted }
{}

/// A zone is in alarm exactly where it was confirmed at a stamp after its floor.
pub fn in_alarm_where_confirmed()
    ensures { InAlarmWhereConfirmed }
{}
