ghost use Rattle.std.specs.Prelude.{◌≡◌, ◌==◌, ◌&&◌, List, [], ◌∷◌, IfOk, OnOk, count_by, false, option_map};
ghost use Rattle.access_levels.specs.Levels.{level_of as level_opened};
ghost use Rattle.site_types.specs.declared.retained.Retained.{Retained as RetainedOf};
ghost use Rattle.site_types.specs.declared.site.Site.{Site as SiteOf};
ghost use Rattle.panel_rules.specs.Moments.{Moment as MomentOf, tick_of};
ghost use Rattle.panel_rules.specs.Operations.{and_request};
ghost use Rattle.plain_operations.specs.Desks.{StandsForDesk, all_requests, outcomes_of};
ghost use Rattle.plain_history.specs.Histories.{moment_of};

use crate::outcomes::Outcomes;
use crate::request::Request;
use access_levels::level_of;
use plain_history::Moment;
use site_types::{Event, Label, Retained, Site};
use std::alloc::Global;
use tick_units::{NoMemory, Task, Tick};

/// Operations that were asked for, in order of their lines, and what became of them.
#[derive(Drop)]
pub struct Desk {
    requests: Vec<Request>,
    outcomes: Outcomes,
}

impl Desk {
    /// Nothing has befallen.
    pub fn new(alloc: Global) -> Desk
        ensures { (site : SiteOf) (kept : RetainedOf) → StandsForDesk site kept [] result }
    {
        Desk {
            requests: Vec::new(alloc),
            outcomes: Outcomes::new(alloc),
        }
    }

    /// All operations asked for so far.
    pub fn requests(&self) -> &[Request]
        ensures { result.now ≡ self.now.requests.items }
    {
        &self.requests
    }

    /// What became of them.
    pub fn outcomes(&self) -> &Outcomes
        ensures { result.now ≡ self.now.outcomes }
    {
        &self.outcomes
    }

    /// Takes one moment more, in the tick that began last before it. Tells whether an operation was done.
    pub fn step(
        &mut self,
        site: &Site,
        kept: &Retained,
        tick: Tick,
        moment: &Moment,
    ) -> Result<bool, NoMemory>
        ensures stands { OnOk result ((history : List MomentOf) → tick_of history ≡ tick.0
            → StandsForDesk site.now kept.now history self.old
            → StandsForDesk site.now kept.now (moment_of moment.now ∷ history) self.new) }
        ensures same { IfOk result (λ changed. changed ≡ false
            → self.new.outcomes.done.items ≡ self.old.outcomes.done.items) }
    {
        match moment {
            Moment::Began => Ok(false),
            Moment::Happened(event) => {
                self.take(site, tick, event)?;
                Ok(false)
            }
            Moment::Turned {
                panel,
                task: Task::Desk,
            } => self.outcomes.desk(site, kept, &self.requests, *panel, tick),
            Moment::Turned { .. } => Ok(false),
            Moment::Kept { failed } => self.outcomes.keep(tick, *failed),
        }
    }

    // Takes the operation of an event.
    fn take(&mut self, site: &Site, tick: Tick, event: &Event) -> Result<(), NoMemory>
        ensures more { OnOk result (all_requests self.new.requests.items ≡ and_request site.now
            tick.0 event.now (all_requests self.old.requests.items)) }
        ensures same { self.new.outcomes ≡ self.old.outcomes }
    {
        if let Event::Op {
            panel,
            code,
            operation,
        } = event
        {
            let level = level_by(code, site);
            let earlier = count_in(&self.requests, *panel, tick);
            let number = self.requests.len() as u64 + 1;
            self.requests.push(Request {
                number,
                tick,
                panel: *panel,
                earlier,
                level,
                operation: *operation,
            })?;
        }
        Ok(())
    }
}

// The level that a code opens, or none.
fn level_by(code: &Option<Label>, site: &Site) -> u8
    ensures { result ≡ level_opened site.now (option_map (λ label. label.bytes) code.now) }
{
    match code {
        None => level_of(None, site),
        Some(label) => level_of(Some(label.as_str()), site),
    }
}

// How many of some operations are those of a panel in a tick.
fn count_in(requests: &[Request], panel: u8, tick: Tick) -> usize
    ensures { result ≡ count_by (λ r. (r.panel == panel) && (r.tick.0 == tick.0)) requests.now }
{
    requests
        .iter()
        .filter(|request| request.panel == panel && request.tick.0 == tick.0)
        .count()
}
