ghost use Rattle.std.specs.Prelude.{◌≡◌, ◌+◌, ◌≤◌, ◌<◌, ◌^◌, ◌∷◌, [], List, ℕ};
ghost use Rattle.site_types.specs.declared.supply_kind.SupplyKind.{SupplyKind as KindOf};
ghost use Rattle.supply_monitor.specs.Supply.{Call as SupplyCall, bad_turns, is_bad, place_of};
ghost use Rattle.panel_rules.specs.Faults.{and_supply, supply_calls};
ghost use Rattle.panel_rules.specs.Moments.{Moment as MomentOf, Turned as TurnedOf};
ghost use Rattle.plain_history.specs.Histories.{moment_of};
ghost use Rattle.plain_history.specs.BadRuns.{Watches, least_of, run_of, run_with, shows};

use crate::bad_run::BadRun;
use crate::moment::Moment;
use site_types::{Event, SupplyKind};
use tick_units::Task;

/// A supply of a panel, as it is watched.
#[derive(Clone, Copy)]
pub struct Watched {
    /// The tick that began last.
    pub tick: u64,
    /// Whether the latest report told it bad.
    pub bad: bool,
    /// The present run of turns at which it was bad; none where it was sound at the latest.
    pub run: Option<BadRun>,
}

impl Watched {
    /// Before the first tick.
    pub(crate) fn new() -> Watched
        ensures stands { (panel : ℕ) (kind : KindOf) → Watches panel kind [] result }
        ensures tick { result.tick ≡ 0 }
    {
        Watched {
            tick: 0,
            bad: false,
            run: None,
        }
    }

    /// After one more moment.
    pub(crate) fn after(self, panel: u8, kind: SupplyKind, moment: &Moment) -> Watched
        requires { self.tick + 1 < 2 ^ 64 }
        ensures stands { (before : List MomentOf) → Watches panel kind before self
            → Watches panel kind (moment_of moment.now ∷ before) result }
        ensures tick { result.tick ≤ self.tick + 1 }
    {
        match *moment {
            Moment::Began => Watched {
                tick: self.tick + 1,
                bad: self.bad,
                run: self.run,
            },
            Moment::Happened(event) => Watched {
                tick: self.tick,
                bad: bad_after(panel, kind, &event, self.bad),
                run: self.run,
            },
            Moment::Turned { panel: other, task } => Watched {
                tick: self.tick,
                bad: self.bad,
                run: if other == panel {
                    self.run_after(task)
                } else {
                    self.run
                },
            },
            Moment::Kept { .. } => self,
        }
    }

    // The run after a turn of the panel's task.
    fn run_after(self, task: Task) -> Option<BadRun>
        ensures { (panel : ℕ) (kind : KindOf) (before : List MomentOf)
            → Watches panel kind before self
            → result ≡ run_of (bad_turns kind (supply_calls panel (TurnedOf panel task ∷ before))) }
    {
        match task {
            Task::Supply => self.run_now(),
            Task::Poll
            | Task::Decide
            | Task::Desk
            | Task::Hold
            | Task::Link
            | Task::Effect
            | Task::Drive
            | Task::Keep => self.run,
        }
    }

    // The run after a turn of Supply made now.
    fn run_now(self) -> Option<BadRun>
        ensures { result ≡ run_with self.tick self.bad self.run }
    {
        if self.bad {
            Some(BadRun {
                latest: self.tick,
                least: self.least(),
            })
        } else {
            None
        }
    }

    fn least(self) -> u64
        ensures { result ≡ least_of self.tick self.run }
    {
        match self.run {
            None => self.tick,
            Some(run) => {
                if self.tick < run.least {
                    self.tick
                } else {
                    run.least
                }
            }
        }
    }

    /// Whether its fault is shown after a wait.
    pub(crate) fn is_shown(self, wait: u16) -> bool
        ensures { result ≡ shows wait self.run }
    {
        match self.run {
            None => false,
            Some(run) => wait as u64 <= run.latest.saturating_sub(run.least),
        }
    }
}

// Whether a supply of a panel is bad after an event.
fn bad_after(panel: u8, kind: SupplyKind, event: &Event, was: bool) -> bool
    ensures { (calls : List SupplyCall) → was ≡ is_bad kind calls
        → result ≡ is_bad kind (and_supply panel event.now calls) }
{
    match *event {
        Event::Supply {
            panel: other,
            kind: told,
            bad,
        } => {
            if other == panel && place_of(kind) == place_of(told) {
                bad
            } else {
                was
            }
        }
        Event::Point { .. }
        | Event::Cable { .. }
        | Event::Link { .. }
        | Event::Confirmed { .. }
        | Event::Op { .. } => was,
    }
}

/// The place of a supply's bit.
pub(crate) fn place_of(kind: SupplyKind) -> u8
    ensures { result ≡ place_of kind }
{
    match kind {
        SupplyKind::Mains => 0,
        SupplyKind::Standby => 1,
        SupplyKind::Voltage => 2,
        SupplyKind::Charger => 3,
    }
}
