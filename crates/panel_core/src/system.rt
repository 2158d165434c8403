ghost use Rattle.std.specs.Prelude.{◌≡◌, [], List, IfOk};
ghost use Rattle.site_types.specs.declared.retained.Retained.{Retained as RetainedOf};
ghost use Rattle.site_types.specs.declared.site.Site.{Site as SiteOf};
ghost use Rattle.site_types.specs.Changes.{IsSized};
ghost use Rattle.site_types.specs.Valid.{IsValid};
ghost use Rattle.panel_rules.specs.Moments.{Moment, tick_of};

use cause_effect::Plan;
use face_text::Answers;
use operation_desk::{Desk, DoneOperation};
use panel_links::Ring;
use panel_parts::{KeptCounts, Parts};
use settings_shown::settings_at_opening;
use site_types::{Event, Retained, Site};
use std::alloc::Global;
use tick_units::{NoMemory, Task, Tick};

/// The panels of a site.
#[derive(Drop)]
pub struct System {
    pub(crate) site: Site,
    pub(crate) plan: Plan,
    pub(crate) panels: Vec<Parts>,
    /// What each panel keeps of each other one.
    pub(crate) ring: Ring,
    pub(crate) tick: Tick,
    pub(crate) desk: Desk,
    /// The settings that are in force.
    pub(crate) settings: Retained,
    pub(crate) counts: KeptCounts,
    /// The panels that may show something else than at the end of the tick before, panel 1 being the first.
    pub(crate) changed: [bool; 8],
}

impl System {
    ghost use Rattle.panel_core.specs.Changes.{AppliesAllDone, AppliesToAll, BeginsTick, HasSameDesk};
    ghost use Rattle.panel_core.specs.Changes.{AnswersAsRuled, BeginsOutputs, TakesEvent};
    ghost use Rattle.panel_core.specs.Heard.{HearsOf};
    ghost use Rattle.panel_core.specs.Marks.{MarksAnew, MarksEvent, MarksNone};
    ghost use Rattle.hold_calls.specs.Lanes.{taken_by};
    ghost use Rattle.panel_core.specs.ShownZones.{ShowsCausedZones, ShowsDueZones, ShowsLoneSignals};
    ghost use Rattle.panel_core.specs.ShownZones.{ShowsOwnFirsts, ShowsOwnZones};
    ghost use Rattle.panel_parts.specs.Stands.{HasPlan};
    ghost use Rattle.panel_core.specs.Stands.{HasPanel, MayApplyAll, MayBegin, MayBeginOutputs, MayHappen};
    ghost use Rattle.panel_core.specs.Stands.{StandsFor};
    ghost use Rattle.operation_desk.specs.Requests.{done_from};

    /// The panels of a site before its first tick, with the plan of its markers.
    pub fn open(alloc: Global, site: Site, plan: Plan, kept: &Retained) -> Result<System, NoMemory>
        requires valid { IsValid site }
        requires plan { HasPlan site plan }
        requires sized { IsSized kept.now }
        ensures { IfOk result (λ system. StandsFor site kept.now [] system) }
    {
        let mut panels = Vec::with_capacity(alloc, site.panels as usize)?;
        for before in 0..site.panels {
            panels.push(Parts::new(alloc, &site, &plan, before + 1, kept)?)?;
        }
        let ring = Ring::new(site.panels);
        let settings = settings_at_opening(&site, kept);
        Ok(System {
            site,
            plan,
            panels,
            ring,
            tick: Tick(0),
            desk: Desk::new(),
            settings,
            counts: KeptCounts::at_opening(kept),
            changed: [true; 8],
        })
    }

    /// A tick begins, and what was done in the one that ends comes in force.
    pub fn begin(&mut self, tick: Tick)
        requires { MayBegin self.old }
        ensures begins { BeginsTick self.old tick.0 self.new }
        ensures marks { MarksAnew self.old self.new.changed }
        ensures unmarked { MarksNone self.old self.new.changed }
    {
        let none_done = self.desk.done().is_empty();
        self.apply_done();
        self.begin_outputs();
        self.desk.begin(tick);
        self.tick = tick;
        self.changed = [!none_done; 8];
    }

    /// An event happens in the tick that began last, before its turns.
    pub fn event(&mut self, event: &Event)
        requires { MayHappen event.now self.old }
        ensures takes { TakesEvent self.old event.now self.new }
        ensures marks { MarksEvent self.old event.now self.new.changed }
    {
        self.desk.event(&self.site, event);
        match *event {
            Event::Point { point, state } => {
                let panel = self.site.points.as_slice()[point as usize].panel;
                let parts = &mut self.panels[panel as usize - 1];
                parts.set_point(point, state);
            }
            Event::Cable {
                panel,
                line,
                piece,
                state,
            } => {
                let parts = &mut self.panels[panel as usize - 1];
                parts.set_piece(line, piece, state);
            }
            Event::Supply { panel, kind, bad } => {
                let parts = &mut self.panels[panel as usize - 1];
                parts.set_supply(kind, bad);
            }
            Event::Link { link, up } => self.ring.set_link(link, up),
            Event::Confirmed { output } => {
                let plan = self.site.outputs.as_slice()[output as usize];
                let parts = &mut self.panels[plan.panel as usize - 1];
                parts.confirm(plan.number);
                self.mark(plan.panel, true);
            }
            Event::Op { .. } => {}
        }
    }

    // What was done in the tick that began last comes in force.
    fn apply_done(&mut self)
        requires { MayBegin self.old }
        ensures applied { AppliesAllDone self.old self.new }
        ensures same { HasSameDesk self.old self.new }
    {
        for place in 0..self.desk.done().len() {
            let done = self.desk.done()[place];
            self.apply(&done);
        }
    }

    // The outputs of each panel take what was done in the tick that began last.
    fn begin_outputs(&mut self)
        requires { MayBeginOutputs self.old }
        ensures begun { BeginsOutputs self.old self.new }
        ensures same { HasSameDesk self.old self.new }
    {
        for before in 0..self.site.panels {
            let parts = &mut self.panels[before as usize];
            parts.drive.begin(before + 1, self.desk.done(), self.tick);
        }
    }

    // An operation comes in force at each panel and in the settings.
    fn apply(&mut self, done: &DoneOperation)
        requires { MayApplyAll (done_from self.old.tick.0 done.now) self.old }
        ensures applied { AppliesToAll self.old (done_from self.old.tick.0 done.now) self.new }
        ensures same { HasSameDesk self.old self.new }
    {
        for before in 0..self.site.panels {
            let parts = &mut self.panels[before as usize];
            parts.apply(before + 1, done, self.tick);
        }
        if let Some(change) = self.site.change_of(done.panel, &done.operation) {
            self.settings.apply(&change);
        }
    }

    /// How many answers the Decide of a panel, or how many findings its Hold, has taken. Other tasks take none.
    pub fn taken(&self, panel: u8, task: Task) -> u64
        requires { HasPanel panel self.now }
        ensures { (site : SiteOf) (kept : RetainedOf) (before : List Moment)
            → StandsFor site kept before self.now → result ≡ taken_by task site panel before }
    {
        let parts = &self.panels[panel as usize - 1];
        match task {
            Task::Decide => parts.answers.taken_count(),
            Task::Hold => parts.findings.taken_count(),
            Task::Poll
            | Task::Supply
            | Task::Desk
            | Task::Link
            | Task::Effect
            | Task::Drive
            | Task::Keep => 0,
        }
    }

    /// The zones that a panel shows of its own in alarm, bit `number - 1`.
    pub fn zones(&self, panel: u8) -> u32
        requires { HasPanel panel self.now }
        ensures shown { ShowsOwnZones self.now panel result }
        ensures due { ShowsDueZones self.now panel result }
        ensures caused { ShowsCausedZones self.now panel result }
    {
        let parts = &self.panels[panel as usize - 1];
        parts.hold.word().alarm
    }

    /// The zones that a panel shows of its own in first state, bit `number - 1`.
    pub fn first(&self, panel: u8) -> u32
        requires { HasPanel panel self.now }
        ensures shown { ShowsOwnFirsts self.now panel result }
        ensures lone { ShowsLoneSignals self.now panel result }
    {
        let parts = &self.panels[panel as usize - 1];
        parts.hold.word().first
    }

    /// The tick of the word of a panel that another one, or the panel itself, keeps.
    pub fn heard(&self, panel: u8, source: u8) -> Tick
        requires panel { HasPanel panel self.now }
        requires source { HasPanel source self.now }
        ensures { HearsOf self.now panel source result.0 }
    {
        self.ring.heard(panel, source)
    }

    /// What was answered in the tick that began last.
    pub fn answers(&self) -> &Answers
        ensures { AnswersAsRuled self.now result.now }
    {
        self.desk.answers()
    }

    /// The tick that began last, 0 before the first.
    pub fn now(&self) -> Tick
        ensures { (site : SiteOf) (kept : RetainedOf) (before : List Moment)
            → StandsFor site kept before self.now → result.0 ≡ tick_of before }
    {
        self.tick
    }

    pub fn site(&self) -> &Site
        ensures { (site : SiteOf) (kept : RetainedOf) (before : List Moment)
            → StandsFor site kept before self.now → result.now ≡ site }
    {
        &self.site
    }
}
