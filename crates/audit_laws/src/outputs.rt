ghost use Rattle.audit_laws.specs.AlikeOutputs.{AlikeFaultsStand, AlikeOutputsAreOn};

/// Two accounts of what was kept and done that are alike make the same of outputs and faults, whatever befell.
pub fn alike_accounts_do_the_same()
    ensures outputs { AlikeOutputsAreOn }
    ensures faults { AlikeFaultsStand }
{}
