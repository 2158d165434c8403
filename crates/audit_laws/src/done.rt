ghost use Rattle.audit_laws.specs.DoneTold.{DoneIsTold, SettingsAreTold, ZonesAreTold};

/// **The answers of a run's text tell as done exactly what was done**, and its opening faces the settings of points and
/// zones as they were kept; so they tell of points and zones, at each tick, what the run has done by then.
pub fn done_is_told()
    ensures told { DoneIsTold }
    ensures settings { SettingsAreTold }
    ensures zones { ZonesAreTold }
{}
