ghost use Rattle.std.specs.Prelude.{◌≡◌, [], ◌∷◌, List, ℕ, IfOk, OnOk};
ghost use Rattle.site_types.specs.Valid.{IsValid};
ghost use Rattle.panel_rules.specs.Moments.{Moment as MomentOf, tick_of};
ghost use Rattle.panel_rules.specs.Zones.{held_answers};
ghost use Rattle.plain_history.specs.Histories.{moment_of};

use answer_lanes::{AnswerBlock, Lane, Run, take_items};
use arrayvec::ArrayVec;
use loop_poller::Poller;
use plain_history::Moment;
use site_types::{Answer, Event, PieceState, Point, PointState, Site};
use std::alloc::Global;
use tick_units::{NoMemory, Task, Tick};

/// All answers of a panel's points, the oldest first, and how many of them the panel's Decide and Hold have taken.
#[derive(Drop)]
pub struct Asking {
    panel: u8,
    poller: Poller,
    answers: Vec<Answer>,
    decided: usize,
    held: usize,
}

impl Asking {
    ghost use Rattle.plain_words.specs.Askings.{AsksSome, Hears, HearsIn, StandsForAsking};

    /// A panel of a site, 1 to its panels, of which nothing befell.
    pub fn new(alloc: Global, site: &Site, panel: u8) -> Result<Asking, NoMemory>
        requires { IsValid site.now }
        ensures { IfOk result (λ asking. StandsForAsking site.now panel [] asking) }
    {
        Ok(Asking {
            panel,
            poller: Poller::new(alloc, site, panel)?,
            answers: Vec::new(alloc),
            decided: 0,
            held: 0,
        })
    }

    /// Takes the next moment of the site; the tick is the one that began last before it.
    pub fn step(
        &mut self,
        alloc: Global,
        site: &Site,
        moment: &Moment,
        tick: Tick,
    ) -> Result<(), NoMemory>
        requires { AsksSome site.now self.old }
        ensures { OnOk result (HearsIn site.now tick.0 (moment_of moment.now) self.old self.new) }
    {
        match *moment {
            Moment::Began | Moment::Kept { .. } => Ok(()),
            Moment::Happened(event) => {
                self.tell(site, &event);
                Ok(())
            }
            Moment::Turned { panel, task } => self.turn(alloc, site, panel, task, tick),
        }
    }

    /// The answers whose findings the panel's Hold has taken.
    pub fn held(&self) -> &[Answer]
        ensures { (site : SiteOf) (panel : ℕ) (history : List MomentOf)
            → StandsForAsking site panel history self.now
            → result.now ≡ held_answers site panel history }
    {
        let count = self.held.min(self.answers.len());
        self.answers.as_slice().split_at(count).0
    }

    // An event happened.
    fn tell(&mut self, site: &Site, event: &Event)
        requires { AsksSome site.now self.old }
        ensures { Hears site.now (HappenedOf event.now) self.old self.new }
    {
        match *event {
            Event::Point { point, state } => self.tell_point(site, point, state),
            Event::Cable {
                panel,
                line,
                piece,
                state,
            } => self.tell_piece(site, panel, line, piece, state),
            Event::Supply { .. } => {}
            Event::Link { .. } => {}
            Event::Confirmed { .. } => {}
            Event::Op { .. } => {}
        }
    }

    fn tell_point(&mut self, site: &Site, point: u16, state: PointState)
        requires { AsksSome site.now self.old }
        ensures { Hears site.now (HappenedOf (PointEvent point state)) self.old self.new }
    {
        if stands_at(self.panel, site.points.get(point as usize)) {
            self.poller.set_point(point, state);
        }
    }

    fn tell_piece(&mut self, site: &Site, panel: u8, line: u8, piece: u8, state: PieceState)
        requires { AsksSome site.now self.old }
        ensures { Hears site.now (HappenedOf (CableEvent panel line piece state)) self.old
            self.new }
    {
        if panel == self.panel && line >= 1 && line <= 4 {
            self.poller.set_piece(line, piece, state);
        }
    }

    // A task of a panel has its turn.
    fn turn(
        &mut self,
        alloc: Global,
        site: &Site,
        panel: u8,
        task: Task,
        tick: Tick,
    ) -> Result<(), NoMemory>
        requires { AsksSome site.now self.old }
        ensures { OnOk result (HearsIn site.now tick.0 (TurnedOf panel task) self.old self.new) }
    {
        if panel != self.panel {
            return Ok(());
        }
        match task {
            Task::Poll => self.poll(alloc, site, tick),
            Task::Decide => {
                self.decided = self.decided.saturating_add(32).min(self.answers.len());
                Ok(())
            }
            Task::Hold => {
                self.held = self.held.saturating_add(32).min(self.decided);
                Ok(())
            }
            Task::Supply => Ok(()),
            Task::Desk => Ok(()),
            Task::Link => Ok(()),
            Task::Effect => Ok(()),
            Task::Drive => Ok(()),
            Task::Keep => Ok(()),
        }
    }

    // The panel's Poll has its turn: it puts what the points answer.
    fn poll(&mut self, alloc: Global, site: &Site, tick: Tick) -> Result<(), NoMemory>
        requires { AsksSome site.now self.old }
        ensures { OnOk result ((panel : ℕ) (history : List MomentOf)
            → StandsForAsking site.now panel history self.old → tick_of history ≡ tick.0
            → StandsForAsking site.now panel (TurnedOf panel PollTask ∷ history) self.new) }
    {
        let mut lane: Lane<AnswerBlock> = Lane::new(alloc, 32, 32)?;
        self.poller.turn(tick, &mut lane);
        let mut runs: ArrayVec<Run<AnswerBlock>, 32> = ArrayVec::new();
        let mut batch: ArrayVec<Answer, 32> = ArrayVec::new();
        take_items(&mut lane, &mut runs, &mut batch);
        self.answers.extend_from_slice(batch.as_slice())?;
        Ok(())
    }
}

ghost use Rattle.std.specs.Prelude.{option_copied};
ghost use Rattle.tick_units.specs.declared.task.Task.TheVariants.{Poll as PollTask};
ghost use Rattle.site_types.specs.declared.event.Event.TheVariants.{Point as PointEvent, Cable as CableEvent};
ghost use Rattle.site_types.specs.declared.site.Site.{Site as SiteOf};
ghost use Rattle.panel_rules.specs.Moments.{Happened as HappenedOf, Turned as TurnedOf};
ghost use Rattle.panel_rules.specs.Reports.{is_on_panel as is_at_panel};

// Whether there is a point, and it is of the panel.
fn stands_at(panel: u8, point: Option<&Point>) -> bool
    ensures { result ≡ is_at_panel panel (option_copied point.entry) }
{
    match point {
        None => false,
        Some(point) => point.panel == panel,
    }
}
