ghost use Rattle.audit_laws.specs.CausesJudged.{CauseRuleIsKept, HeardAtEffectMayBe, ReleasedIsInAlarm};

/// **Where a run's text tells all that was kept and done, each output that it shows on can have a cause**: the facts
/// that the panel went by, at stamps that it may have heard.
pub fn cause_rule_is_kept()
    ensures released { ReleasedIsInAlarm }
    ensures stamps { HeardAtEffectMayBe }
    ensures kept { CauseRuleIsKept }
{}
