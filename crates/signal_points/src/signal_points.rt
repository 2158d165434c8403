ghost use Rattle.std.specs.Prelude.{◌∷◌, List};
ghost use Rattle.site_types.specs.declared.retained.Retained.{Retained as RetainedOf};
ghost use Rattle.blocked_points.specs.declared.done_operation.DoneOperation.{DoneOperation as DoneOperationOf};
ghost use Rattle.panel_rules.specs.Moments.{TickBlock};
ghost use Rattle.signal_points.specs.Looks.{AreRunsAfter};
ghost use Rattle.signal_points.specs.States.{PointsStand, signals_now};

use crate::point_states::PointStates;
use blocked_points::DoneOperation;
use point_runs::PointRun;
use site_types::{Event, Retained, Site};
use std::alloc::Global;
use tick_units::{NoMemory, Tick};

/// For each point of a site the ticks at which it signals.
#[derive(Drop)]
pub struct SignalPoints {
    /// How many ticks a round takes.
    round: u64,
    states: PointStates,
    /// By the places of the points.
    runs: Vec<PointRun>,
}

impl SignalPoints {
    ghost use Rattle.std.specs.Prelude.{[], IfOk};
    ghost use Rattle.site_types.specs.declared.site.Site.{Site as SiteOf};
    ghost use Rattle.site_types.specs.Valid.{IsValid};
    ghost use Rattle.blocked_points.specs.Operations.{AreDoneInOrder};
    ghost use Rattle.signal_points.specs.Stands.{AreSignalRuns, StandsFor};
    ghost use Rattle.signal_points.specs.States.{NextTick};

    /// Before the first tick no point signals. The operations are all that were ever done, later ones among them.
    pub fn new(alloc: Global, site: &Site, kept: &Retained) -> Result<SignalPoints, NoMemory>
        ensures { IfOk result (λ signals. (operations : List DoneOperationOf) → IsValid site.now
            → AreDoneInOrder operations → StandsFor site.now kept.now operations [] signals) }
    {
        let states = PointStates::new(alloc, site, kept)?;
        let runs = vec![in alloc; PointRun::none(); site.points.len()]?;
        Ok(SignalPoints {
            round: 12 * site.format as u64,
            states,
            runs,
        })
    }

    /// Takes the next tick: its events, and of the operations those that come into force.
    pub fn take_tick(&mut self, site: &Site, now: Tick, done: &[DoneOperation], events: &[Event])
        ensures { (kept : RetainedOf) (ticks : List TickBlock) (tick : TickBlock)
            → NextTick ticks tick now.0 events.now → StandsFor site.now kept done.now ticks self.old
            → StandsFor site.now kept done.now (tick ∷ ticks) self.new }
    {
        if self.states.take_tick(site, now, done, events) {
            look_at_each(&mut self.runs, &self.states, site, self.round, now);
        }
    }

    /// For each point since when it has signalled, and when it last did for a whole round.
    pub fn runs(&self) -> &[PointRun]
        ensures { (site : SiteOf) (kept : RetainedOf) (operations : List DoneOperationOf)
            (ticks : List TickBlock) → StandsFor site kept operations ticks self.now
            → AreSignalRuns site kept operations ticks result.now }
    {
        self.runs.as_slice()
    }
}

// Looks at each point, whether it signals in this tick.
fn look_at_each(runs: &mut [PointRun], states: &PointStates, site: &Site, round: u64, now: Tick)
    ensures { (kept : RetainedOf) (operations : List DoneOperationOf) (ticks : List TickBlock)
        → PointsStand site.now kept operations ticks states.now → AreRunsAfter round now.0
        (λ point. signals_now site.now kept operations ticks point) runs.old runs.new }
{
    for place in 0..runs.len() {
        let holds = states.signals(site, place);
        runs[place] = runs[place].after(round, now.0, holds);
    }
}
