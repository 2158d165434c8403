ghost use Rattle.audit_laws.specs.AlikeZones.{AlikeZonesAreShown};
ghost use Rattle.audit_laws.specs.ZonesJudged.{ZoneRulesAreKept};

/// **Where the answers of a run's text tell what was done to points and zones, it breaks neither rule on zones**: each
/// zone that is due is shown, and each that is shown can have a cause.
pub fn zone_rules_are_kept()
    ensures alike { AlikeZonesAreShown }
    ensures kept { ZoneRulesAreKept }
{}
