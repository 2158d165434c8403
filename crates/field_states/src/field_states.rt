//! What points and cables are at.

ghost use Rattle.std.specs.Prelude.{◌≡◌, slice_set};

use crate::lines::{lines_of, place_of, report};
use isolators::LoopLine;
use site_types::{Event, Point, PointState, Site};
use std::alloc::Global;
use tick_units::NoMemory;

/// What the points of a site and the cables of its loops are at, by their places.
#[derive(Drop)]
pub struct FieldStates {
    states: Vec<PointState>,
    lines: Vec<LoopLine>,
}

impl FieldStates {
    ghost use Rattle.std.specs.Prelude.{◌<◌, [], ◌∷◌, List, ℕ, IfOk, Some, length, slice_get};
    ghost use Rattle.site_types.specs.declared.site.Site.{Site as SiteOf};
    ghost use Rattle.site_types.specs.Valid.{IsValid};
    ghost use Rattle.panel_rules.specs.Due.{reached_at};
    ghost use Rattle.panel_rules.specs.Moments.{Moment as MomentOf, Happened};
    ghost use Rattle.panel_rules.specs.States.{state_of};
    ghost use Rattle.field_states.specs.Field.{FieldStands};
    ghost use Rattle.field_states.specs.Sounding.{is_alarm_state, sounds_at};

    /// All points are quiet and all cables sound.
    pub fn new(alloc: Global, site: &Site) -> Result<FieldStates, NoMemory>
        ensures { IfOk result (λ field. FieldStands site.now [] field) }
    {
        let states = vec![in alloc; PointState::Quiet; site.points.len()]?;
        let lines = lines_of(alloc, site.loops.as_slice())?;
        Ok(FieldStates { states, lines })
    }

    /// Takes an event of the site.
    pub fn take(&mut self, site: &Site, event: &Event)
        ensures { (before : List MomentOf) → FieldStands site.now before self.old
            → FieldStands site.now (Happened event.now ∷ before) self.new }
    {
        match *event {
            Event::Point { point, state } => set_state(&mut self.states, point as usize, state),
            Event::Cable {
                panel,
                line,
                piece,
                state,
            } => report(
                &mut self.lines,
                site.loops.as_slice(),
                panel,
                line,
                piece,
                state,
            ),
            Event::Supply { .. } => {}
            Event::Link { .. } => {}
            Event::Confirmed { .. } => {}
            Event::Op { .. } => {}
        }
    }

    /// Whether a point is in alarm and reached.
    pub fn sounds(&self, site: &Site, place: usize, point: &Point) -> bool
        ensures { (before : List MomentOf) → IsValid site.now
            → slice_get site.now.points place ≡ Some point.now
            → FieldStands site.now before self.now → result ≡ sounds_at site.now before place }
    {
        self.is_in_alarm(place) && self.reaches(site, point)
    }

    fn is_in_alarm(&self, place: usize) -> bool
        ensures { (site : SiteOf) (before : List MomentOf) → FieldStands site before self.now
            → place < length site.points → result ≡ is_alarm_state (state_of place before) }
    {
        match self.states.get(place) {
            Some(PointState::Alarm) => true,
            _ => false,
        }
    }

    fn reaches(&self, site: &Site, point: &Point) -> bool
        ensures { (before : List MomentOf) (place : ℕ) → IsValid site.now
            → slice_get site.now.points place ≡ Some point.now
            → FieldStands site.now before self.now → result ≡ reached_at site.now place before }
    {
        match place_of(site.loops.as_slice(), point.panel, point.line) {
            None => false,
            Some(place) => match self.lines.get(place) {
                None => false,
                Some(cable) => point.address > 0 && cable.reach(point.address),
            },
        }
    }
}

// A point that the site hasn't isn't heard of.
fn set_state(states: &mut [PointState], place: usize, state: PointState)
    ensures { states.new ≡ slice_set states.old place state }
{
    if place < states.len() {
        states[place] = state;
    }
}
