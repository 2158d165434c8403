ghost use Rattle.audit_laws.specs.AccountsTold.{AccountIsTold, OutputRuleIsKept};
ghost use Rattle.audit_laws.specs.ToldSilences.{SilencesAreTold};

/// **A run's text tells all that was kept and done**, as far as zones, outputs and faults go by it, also which of a
/// silence and a resound of one tick came last; and each output that is due to be on is shown on.
pub fn account_is_told()
    ensures silences { SilencesAreTold }
    ensures account { AccountIsTold }
    ensures outputs { OutputRuleIsKept }
{}
