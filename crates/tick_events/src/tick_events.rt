ghost use Rattle.std.specs.Prelude.{◌≡◌, ◌≤◌, ℕ, List, map, length, take, drop, slice_index_or, IfOk, OnOk};
ghost use Rattle.site_types.specs.declared.site.Site.{Site};
ghost use Rattle.record_lines.specs.Judged.{line_view};
ghost use Rattle.panel_rules.specs.Moments.{TickBlock};
ghost use Rattle.audit_rules.specs.RecordTicks.{ticks_of_record};
ghost use Rattle.tick_events.specs.Told.{TellsEvents, TellsEventsOfTick, and_event, befalls};

use record_lines::Line;
use site_types::Event;
use std::alloc::Global;
use tick_units::NoMemory;

/// The events that the lines of a record tell, the earliest first.
#[derive(Drop)]
pub struct TickEvents {
    events: Vec<Event>,
    /// Where the events of each tick begin.
    starts: Vec<usize>,
}

impl TickEvents {
    /// The events of the lines of a record, tick by tick.
    ///
    /// # Errors
    ///
    /// Where memory is refused.
    pub fn of_lines(alloc: Global, lines: &[Line]) -> Result<TickEvents, NoMemory>
        ensures { IfOk result (λ told. (site : Site)
            → TellsEvents (ticks_of_record site (map line_view lines.now)) told) }
    {
        let mut events = Vec::new(alloc);
        let mut starts = Vec::new(alloc);
        for place in 0..lines.len() {
            match &lines[place] {
                Line::Tick(_) => starts.push(events.len())?,
                Line::Event(event) => put(&mut events, befalling(starts.len(), event))?,
                Line::Order(_) => {}
                Line::End => {}
            }
        }
        Ok(TickEvents { events, starts })
    }

    /// How many ticks there are.
    pub fn count(&self) -> usize
        ensures { (ticks : List TickBlock) → TellsEvents ticks self.now → result ≡ length ticks }
    {
        self.starts.len()
    }

    /// The events of a tick, counted from 1; of a tick that the lines don't tell there are none.
    pub fn of_tick(&self, tick: usize) -> &[Event]
        ensures { (ticks : List TickBlock) → TellsEvents ticks self.now → 1 ≤ tick
            → tick ≤ length ticks → TellsEventsOfTick ticks tick result.now }
    {
        let before = front(&self.events, self.start(tick));
        behind(before, self.start(tick.saturating_sub(1)))
    }

    // Where the events of a tick, counted from 0, begin; behind the last one, where all end.
    fn start(&self, place: usize) -> usize
        ensures { result ≡ slice_index_or self.now.starts.items place
            (length self.now.events.items) }
    {
        match self.starts.get(place) {
            Some(start) => *start,
            None => self.events.len(),
        }
    }
}

// The first so many events, or all where there are fewer.
fn front(events: &[Event], count: usize) -> &[Event]
    ensures { result.now ≡ take count events.now }
{
    if count < events.len() {
        events.split_at(count).0
    } else {
        events
    }
}

// The events behind the first so many.
fn behind(events: &[Event], count: usize) -> &[Event]
    ensures { result.now ≡ drop count events.now }
{
    if count < events.len() {
        events.split_at(count).1
    } else {
        &[]
    }
}

// What befalls by a line in the newest of so many ticks. Before the first tick nothing does.
fn befalling(ticks: usize, event: &Event) -> Option<Event>
    ensures { result ≡ befalls ticks event.now }
{
    if ticks == 0 { None } else { Some(*event) }
}

// Puts an event, where there is one, behind the others. An operation with a code has an arm of its own, since the
// checker finds the type of a code only where one is named.
fn put(events: &mut Vec<Event>, event: Option<Event>) -> Result<(), NoMemory>
    ensures { OnOk result (events.new.items ≡ and_event event events.old.items) }
{
    match event {
        None => {}
        Some(
            Event::Op {
                panel,
                code: Some(code),
                operation,
            },
        ) => events.push(Event::Op {
            panel,
            code: Some(code),
            operation,
        })?,
        Some(event) => events.push(event)?,
    }
    Ok(())
}
