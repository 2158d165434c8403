ghost use Rattle.std.specs.Prelude.{◌≡◌, true};
ghost use Rattle.supply_monitor.specs.Watches.{IsSound};

use crate::watch::Watch;
use site_types::{SupplyKind, Waits, mask_from_8};
use tick_units::Tick;

/// Watches the supplies of a panel.
#[derive(Clone, Copy, Debug, PartialEq, Eq)]
pub struct Supply {
    waits: Waits,
    mains: Watch,
    standby: Watch,
    voltage: Watch,
    charger: Watch,
    /// No supply was found bad by the latest turn, and none was reported since.
    at_rest: bool,
    ghost sound_mains: { at_rest ≡ true → IsSound mains },
    ghost sound_standby: { at_rest ≡ true → IsSound standby },
    ghost sound_voltage: { at_rest ≡ true → IsSound voltage },
    ghost sound_charger: { at_rest ≡ true → IsSound charger },
}

impl Supply {
    ghost use Rattle.std.specs.Prelude.{[], ◌∷◌, List};
    ghost use Rattle.site_types.specs.declared.waits.Waits.{Waits as WaitsOf};
    ghost use Rattle.supply_monitor.specs.Supply.{AllBefore, Call, Reported, Turned, shown_mask};
    ghost use Rattle.supply_monitor.specs.Stands.{StandsFor};

    /// Four sound supplies, each with its wait in ticks.
    pub fn new(waits: &Waits) -> Supply
        ensures { StandsFor waits.now [] result }
    {
        Supply {
            waits: *waits,
            mains: Watch::SOUND,
            standby: Watch::SOUND,
            voltage: Watch::SOUND,
            charger: Watch::SOUND,
            at_rest: true,
        }
    }

    /// Takes a report. The next turn is the first that finds it.
    pub fn read(&mut self, kind: SupplyKind, bad: bool)
        ensures { (waits : WaitsOf) (calls : List Call) → StandsFor waits calls self.old
            → StandsFor waits (Reported kind bad ∷ calls) self.new }
    {
        self.at_rest = false;
        match kind {
            SupplyKind::Mains => self.mains.bad = bad,
            SupplyKind::Standby => self.standby.bad = bad,
            SupplyKind::Voltage => self.voltage.bad = bad,
            SupplyKind::Charger => self.charger.bad = bad,
        }
    }

    /// Looks at the supplies in a tick, which is later than those of the turns before.
    pub fn turn(&mut self, now: Tick)
        ensures { (waits : WaitsOf) (calls : List Call) → StandsFor waits calls self.old
            → AllBefore now.0 calls → StandsFor waits (Turned now.0 ∷ calls) self.new }
    {
        if self.at_rest {
            return;
        }
        self.mains = self.mains.turn(now, self.waits.mains);
        self.standby = self.standby.turn(now, self.waits.standby);
        self.voltage = self.voltage.turn(now, self.waits.voltage);
        self.charger = self.charger.turn(now, self.waits.charger);
        let any_bad = self.mains.bad || self.standby.bad || self.voltage.bad || self.charger.bad;
        self.at_rest = !any_bad;
    }

    /// The faults that the latest turn showed, a bit for each supply in the order of [`SupplyKind`].
    pub fn faults(&self) -> u8
        ensures { (waits : WaitsOf) (calls : List Call) → StandsFor waits calls self.now
            → result ≡ shown_mask waits calls }
    {
        if self.at_rest {
            return 0;
        }
        mask_from_8(&[
            self.mains.shown,
            self.standby.shown,
            self.voltage.shown,
            self.charger.shown,
        ])
    }
}
