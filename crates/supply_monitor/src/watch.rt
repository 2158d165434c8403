ghost use Rattle.std.specs.Prelude.{◌≡◌, ◌∷◌, List, false};
ghost use Rattle.site_types.specs.declared.supply_kind.SupplyKind.{SupplyKind as KindOf};
ghost use Rattle.supply_monitor.specs.Supply.{AllBefore, Call, Reported, Turned};
ghost use Rattle.supply_monitor.specs.Stands.{Keeps};
ghost use Rattle.supply_monitor.specs.Watches.{IsSound};

use tick_units::Tick;

/// What is kept of one supply.
#[derive(Clone, Copy, Debug, PartialEq, Eq)]
pub struct Watch {
    /// The latest report.
    pub bad: bool,
    /// The first turn of the present unbroken run of turns that found it bad.
    pub since: Option<Tick>,
    /// Whether the latest turn showed its fault.
    pub shown: bool,
}

impl Watch {
    /// A supply of which nothing was reported.
    pub const SOUND: Watch = Watch {
        bad: false,
        since: None,
        shown: false,
    };

    /// Looks at the supply in a tick.
    pub fn turn(self, tick: Tick, wait: u16) -> Watch
        ensures keeps { (kind : KindOf) (calls : List Call) → Keeps wait kind calls self
            → AllBefore tick.0 calls → Keeps wait kind (Turned tick.0 ∷ calls) result }
        ensures sound { result.bad ≡ false → IsSound result }
    {
        if !self.bad {
            return Watch::SOUND;
        }
        let since = self.since.unwrap_or(tick);
        Watch {
            bad: true,
            since: Some(since),
            shown: tick.0.saturating_sub(since.0) >= wait as u64,
        }
    }
}
