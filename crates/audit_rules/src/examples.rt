ghost use Rattle.audit_rules.specs.Examples.{FailsUncaused, FailsUnshown, PassesOne};

/// What the rules give for a site with one panel and a detector in alarm from tick 1 on: a text that shows zone and
/// sounder when the detector is asked passes, one that shows nothing fails when the zone is due, and one that shows
/// the zone before the detector is asked fails there.
pub fn small_cases_are_judged()
    ensures passes { PassesOne }
    ensures unshown { FailsUnshown }
    ensures uncaused { FailsUncaused }
{}
