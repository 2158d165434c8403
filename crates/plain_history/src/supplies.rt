ghost use Rattle.std.specs.Prelude.{◌≡◌};
ghost use Rattle.supply_monitor.specs.Supply.{bad_turns, lasts, shown_mask};
ghost use Rattle.panel_rules.specs.Faults.{supply_calls};
ghost use Rattle.plain_history.specs.Histories.{history};

use crate::moment::Moment;
use crate::watched::{Watched, place_of};
use site_types::{Event, SupplyKind, Waits, mask_from_8};

/// The supplies of a panel whose fault is shown, a bit for each in their order.
pub fn shown_supplies(waits: &Waits, panel: u8, moments: &[Moment]) -> u8
    ensures { result ≡ shown_mask waits.now (supply_calls panel (history moments.now)) }
{
    mask_from_8(&[
        is_shown(panel, SupplyKind::Mains, waits.mains, moments),
        is_shown(panel, SupplyKind::Standby, waits.standby, moments),
        is_shown(panel, SupplyKind::Voltage, waits.voltage, moments),
        is_shown(panel, SupplyKind::Charger, waits.charger, moments),
    ])
}

// Whether the fault of a supply is shown after a wait.
fn is_shown(panel: u8, kind: SupplyKind, wait: u16, moments: &[Moment]) -> bool
    ensures { result ≡ lasts wait (bad_turns kind (supply_calls panel (history moments.now))) }
{
    if !was_bad(panel, kind, moments) {
        return false;
    }
    let mut watched = Watched::new();
    for moment in moments {
        watched = watched.after(panel, kind, moment);
    }
    watched.is_shown(wait)
}

ghost use Rattle.std.specs.List.{list_any};
ghost use Rattle.plain_history.specs.Histories.{moment_of};
ghost use Rattle.plain_history.specs.Reported.{tells_bad as tells_bad_so};

// Whether a supply of a panel was ever reported bad.
fn was_bad(panel: u8, kind: SupplyKind, moments: &[Moment]) -> bool
    ensures { result ≡ list_any (λ moment. tells_bad_so panel kind (moment_of moment)) moments.now }
{
    moments.iter().any(|moment| tells_bad(panel, kind, moment))
}

fn tells_bad(panel: u8, kind: SupplyKind, moment: &Moment) -> bool
    ensures { result ≡ tells_bad_so panel kind (moment_of moment.now) }
{
    match *moment {
        Moment::Happened(
            Event::Supply {
                panel: other,
                kind: told,
                bad,
            },
        ) => bad && other == panel && place_of(kind) == place_of(told),
        _ => false,
    }
}
