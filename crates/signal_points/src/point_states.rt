//! What decides which points signal.

ghost use Rattle.std.specs.Prelude.{◌≡◌, false, List, map};
ghost use Rattle.record_lines.specs.Events.{event_view};
ghost use Rattle.panel_rules.specs.Moments.{Moment as MomentOf, and_events};
ghost use Rattle.field_states.specs.Field.{FieldStands};
ghost use Rattle.signal_points.specs.Reports.{ChangeNoSound, tells_of_field};

use blocked_points::{BlockedPoints, DoneOperation};
use field_states::FieldStates;
use site_types::{Event, Retained, Site};
use std::alloc::Global;
use tick_units::{NoMemory, Tick};

/// What the points and cables of a site are at, and which points are blocked.
#[derive(Drop)]
pub struct PointStates {
    field: FieldStates,
    blocked: BlockedPoints,
}

impl PointStates {
    ghost use Rattle.std.specs.Prelude.{[], IfOk};
    ghost use Rattle.site_types.specs.declared.retained.Retained.{Retained as RetainedOf};
    ghost use Rattle.site_types.specs.Valid.{IsValid};
    ghost use Rattle.blocked_points.specs.declared.done_operation.DoneOperation.{DoneOperation as DoneOperationOf};
    ghost use Rattle.blocked_points.specs.Operations.{AreDoneInOrder};
    ghost use Rattle.panel_rules.specs.Moments.{TickBlock};
    ghost use Rattle.signal_points.specs.States.{PointsStand, TakesTick, signals_now};

    /// Before the first tick.
    pub fn new(alloc: Global, site: &Site, kept: &Retained) -> Result<PointStates, NoMemory>
        ensures { IfOk result (λ states. (operations : List DoneOperationOf) → IsValid site.now
            → AreDoneInOrder operations → PointsStand site.now kept.now operations [] states) }
    {
        let field = FieldStates::new(alloc, site)?;
        let blocked = BlockedPoints::new(alloc, site, kept)?;
        Ok(PointStates { field, blocked })
    }

    /// Goes on to the next tick and takes its events, and tells whether points may signal that didn't, or the other
    /// way round.
    pub fn take_tick(
        &mut self,
        site: &Site,
        now: Tick,
        done: &[DoneOperation],
        events: &[Event],
    ) -> bool
        ensures { TakesTick site.now done.now now.0 events.now result self.old self.new }
    {
        let told = take_events(&mut self.field, site, events);
        let came = self.blocked.tick(done, now);
        told || came
    }

    /// Whether a point signals now.
    pub fn signals(&self, site: &Site, place: usize) -> bool
        ensures { (kept : RetainedOf) (operations : List DoneOperationOf) (ticks : List TickBlock)
            → PointsStand site.now kept operations ticks self.now
            → result ≡ signals_now site.now kept operations ticks place }
    {
        match site.points.get(place) {
            None => false,
            Some(point) => {
                self.field.sounds(site, place, point) && !self.blocked.blocks(place, point)
            }
        }
    }
}

// Takes events one after another, and tells whether one speaks of a point or a cable.
fn take_events(field: &mut FieldStates, site: &Site, events: &[Event]) -> bool
    ensures stands { (before : List MomentOf) → FieldStands site.now before field.old
        → FieldStands site.now (and_events (map event_view events.now) before) field.new }
    ensures same { result ≡ false → ChangeNoSound site.now (map event_view events.now) }
{
    let mut told = false;
    for event in events {
        field.take(site, event);
        if is_of_field(event) {
            told = true;
        }
    }
    told
}

fn is_of_field(event: &Event) -> bool
    ensures { result ≡ tells_of_field event.now }
{
    match *event {
        Event::Point { .. } => true,
        Event::Cable { .. } => true,
        Event::Supply { .. } => false,
        Event::Link { .. } => false,
        Event::Confirmed { .. } => false,
        Event::Op { .. } => false,
    }
}
