ghost use Rattle.std.specs.Prelude.{◌≡◌, ℕ, [], List, IfOk};
ghost use Rattle.site_types.specs.declared.retained.Retained.{Retained as RetainedOf};
ghost use Rattle.site_types.specs.declared.site.Site.{Site as SiteOf};
ghost use Rattle.site_types.specs.Changes.{IsSized};
ghost use Rattle.site_types.specs.Valid.{IsValid};
ghost use Rattle.node_rules.specs.Histories.{NodeMoment, befallen};
ghost use Rattle.panel_parts.specs.Stands.{HasPlan};
ghost use Rattle.panel_rules.specs.Moments.{IsPanel, tick_of};

use cause_effect::Plan;
use face_text::Answers;
use kept_words::KeptWords;
use operation_desk::{Desk, DoneOperation};
use panel_links::Frame;
use panel_parts::{KeptCounts, Parts};
use settings_shown::settings_at_opening;
use site_types::{Event, Retained, Site};
use std::alloc::Global;
use tick_units::{NoMemory, Tick};

/// A panel of a site by itself.
#[derive(Drop)]
pub struct Node {
    pub(crate) site: Site,
    pub(crate) plan: Plan,
    /// The digest of the site's file, which its frames carry.
    pub(crate) digest: [u8; 32],
    /// The number of the panel.
    pub(crate) panel: u8,
    pub(crate) parts: Parts,
    /// What it keeps of each panel, and when frames came.
    pub(crate) words: KeptWords,
    pub(crate) tick: Tick,
    pub(crate) desk: Desk,
    /// The settings that are in force.
    pub(crate) settings: Retained,
    pub(crate) counts: KeptCounts,
}

impl Node {
    ghost use Rattle.operation_desk.specs.Requests.{done_from};
    ghost use Rattle.panel_node.specs.Changes.{AppliesAll, AppliesOne, BeginsTick, LeavesTheRest, TakesEvent};
    ghost use Rattle.panel_node.specs.Changes.{TakesFrame};
    ghost use Rattle.panel_node.specs.Shown.{AnswersAsRuled};
    ghost use Rattle.panel_node.specs.Stands.{MayApply, MayBegin, MayHappen, MayReceive, NodeStandsFor};

    /// A panel of a site before its first tick, with the plan of its markers and the digest of its file.
    pub fn open(
        alloc: Global,
        site: Site,
        plan: Plan,
        digest: [u8; 32],
        panel: u8,
        kept: &Retained,
    ) -> Result<Node, NoMemory>
        requires valid { IsValid site }
        requires plan { HasPlan site plan }
        requires member { IsPanel site.panels panel }
        requires sized { IsSized kept.now }
        ensures stands { IfOk result (λ node. NodeStandsFor site panel kept.now [] node) }
        ensures digest { IfOk result (λ node. node.digest ≡ digest) }
    {
        let parts = Parts::new(alloc, &site, &plan, panel, kept)?;
        let words = KeptWords::new(site.panels, panel);
        let settings = settings_at_opening(&site, kept);
        Ok(Node {
            site,
            plan,
            digest,
            panel,
            parts,
            words,
            tick: Tick(0),
            desk: Desk::new(),
            settings,
            counts: KeptCounts::at_opening(kept),
        })
    }

    /// A tick begins, and what was done in the one that ends comes in force.
    pub fn begin(&mut self, tick: Tick)
        requires { MayBegin self.old }
        ensures begins { BeginsTick self.old tick.0 self.new }
        ensures digest { self.new.digest ≡ self.old.digest }
    {
        self.apply_done();
        self.parts
            .drive
            .begin(self.panel, self.desk.done(), self.tick);
        self.desk.begin(tick);
        self.tick = tick;
    }

    /// An event of the panel happens in the tick that began last, before its turns.
    pub fn event(&mut self, event: &Event)
        requires { MayHappen event.now self.old }
        ensures takes { TakesEvent self.old event.now self.new }
        ensures digest { self.new.digest ≡ self.old.digest }
    {
        self.desk.event(&self.site, event);
        match *event {
            Event::Point { point, state } => self.parts.set_point(point, state),
            Event::Cable {
                line,
                piece,
                state,
                ..
            } => self.parts.set_piece(line, piece, state),
            Event::Supply { kind, bad, .. } => self.parts.set_supply(kind, bad),
            Event::Confirmed { output } => {
                let plan = self.site.outputs.as_slice()[output as usize];
                self.parts.confirm(plan.number);
            }
            Event::Link { .. } => {}
            Event::Op { .. } => {}
        }
    }

    /// A frame of a neighbour comes.
    pub fn receive(&mut self, frame: &Frame)
        requires { MayReceive frame.now self.old }
        ensures takes { TakesFrame self.old frame.now self.new }
        ensures digest { self.new.digest ≡ self.old.digest }
    {
        self.words.receive(self.tick, frame);
    }

    // What was done in the tick that began last comes in force.
    fn apply_done(&mut self)
        requires { MayBegin self.old }
        ensures applied { AppliesAll self.old self.new }
        ensures same { LeavesTheRest self.old self.new }
    {
        for place in 0..self.desk.done().len() {
            let done = self.desk.done()[place];
            self.apply(&done);
        }
    }

    // An operation comes in force at the panel and in the settings.
    fn apply(&mut self, done: &DoneOperation)
        requires { MayApply (done_from self.old.tick.0 done.now) self.old }
        ensures applied { AppliesOne self.old (done_from self.old.tick.0 done.now) self.new }
        ensures same { LeavesTheRest self.old self.new }
    {
        self.parts.apply(self.panel, done, self.tick);
        if let Some(change) = self.site.change_of(done.panel, &done.operation) {
            self.settings.apply(&change);
        }
    }

    /// What was answered in the tick that began last.
    pub fn answers(&self) -> &Answers
        ensures { AnswersAsRuled self.now result.now }
    {
        self.desk.answers()
    }

    /// The tick that began last, 0 before the first.
    pub fn now(&self) -> Tick
        ensures { (site : SiteOf) (panel : ℕ) (kept : RetainedOf) (history : List NodeMoment)
            → NodeStandsFor site panel kept history self.now
            → result.0 ≡ tick_of (befallen history) }
    {
        self.tick
    }

    pub fn site(&self) -> &Site
        ensures { (site : SiteOf) (panel : ℕ) (kept : RetainedOf) (history : List NodeMoment)
            → NodeStandsFor site panel kept history self.now → result.now ≡ site }
    {
        &self.site
    }

    /// The digest of the site's file, which frames of the site carry.
    pub fn digest(&self) -> &[u8; 32]
        ensures { result.now ≡ self.now.digest }
    {
        &self.digest
    }
}
