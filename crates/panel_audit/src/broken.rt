use crate::found::Found;
use crate::numbered::Numbered;
use audit_rules::AuditRule;

/// A rule that is broken after a tick, and where.
#[derive(Clone, Copy)]
pub(crate) struct Broken {
    pub(crate) rule: AuditRule,
    /// The panel that shows or doesn't show, or the output's own.
    pub(crate) panel: u8,
    /// The zone's own panel, or the output's.
    pub(crate) owner: u8,
    pub(crate) number: u8,
}

impl Broken {
    ghost use Rattle.std.specs.Prelude.{◌≡◌, Some, slice_get};
    ghost use Rattle.panel_audit.specs.declared.numbered.Numbered.{Numbered as NumberedOf};
    ghost use Rattle.panel_audit.specs.Breaking.{broken_output, broken_zone};

    /// An answer that nobody may have given.
    pub(crate) const ANSWER: Broken = Broken {
        rule: AuditRule::Answer,
        panel: 0,
        owner: 0,
        number: 0,
    };

    /// A zone that was found.
    pub(crate) fn zone(rule: AuditRule, zones: &[Numbered], found: Found) -> Broken
        ensures { (zone : NumberedOf) → slice_get zones.now found.place ≡ Some zone
            → result ≡ broken_zone rule found.panel zone }
    {
        match zones.get(found.place) {
            None => Broken::ANSWER,
            Some(zone) => Broken {
                rule,
                panel: found.panel,
                owner: zone.panel,
                number: zone.number,
            },
        }
    }

    /// An output that was found.
    pub(crate) fn output(rule: AuditRule, outputs: &[Numbered], place: usize) -> Broken
        ensures { (output : NumberedOf) → slice_get outputs.now place ≡ Some output
            → result ≡ broken_output rule output }
    {
        match outputs.get(place) {
            None => Broken::ANSWER,
            Some(output) => Broken {
                rule,
                panel: output.panel,
                owner: output.panel,
                number: output.number,
            },
        }
    }
}
