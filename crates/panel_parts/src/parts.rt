ghost use Rattle.std.specs.Prelude.{◌≡◌, ◌≤◌, IfOk, true};
ghost use Rattle.site_types.specs.Valid.{IsValid};
ghost use Rattle.site_types.specs.Changes.{IsNumber};
ghost use Rattle.loop_poller.specs.Stands.{HasPoint};
ghost use Rattle.panel_rules.specs.Moments.{IsPanel};

use answer_lanes::{AnswerBlock, FindingBlock, Lane};
use cause_effect::Plan;
use coincidence::Decide;
use loop_poller::Poller;
use operation_desk::DoneOperation;
use output_drive::Drive;
use panel_conditions::{Hold, Outside};
use panel_effects::Effects;
use site_types::{PieceState, PointState, Retained, Site, SupplyKind};
use std::alloc::Global;
use supply_monitor::Supply;
use tick_units::{NoMemory, Tick};

/// The parts of a panel, joined by lanes. Effect and what begins Drive's tick are called on the parts themselves.
#[derive(Drop)]
pub struct Parts {
    pub poller: Poller,
    pub decide: Decide,
    pub hold: Hold,
    pub answers: Lane<AnswerBlock>,
    pub findings: Lane<FindingBlock>,
    pub supply: Supply,
    pub effects: Effects,
    pub drive: Drive,
}

impl Parts {
    ghost use Rattle.panel_parts.specs.Changes.{AppliesDone, HearsConfirmation, HearsPiece, HearsPoint, HearsSupply};
    ghost use Rattle.panel_parts.specs.Changes.{MakesDriveTurn, MakesHoldTurn, MakesTurn, TellsHold};
    ghost use Rattle.tick_units.specs.declared.task.Task.TheVariants.{Decide as DecideTask, Hold as HoldTask};
    ghost use Rattle.tick_units.specs.declared.task.Task.TheVariants.{Poll, Supply as SupplyTask};
    ghost use Rattle.operation_desk.specs.Requests.{done_from};
    ghost use Rattle.panel_conditions.specs.Changes.{ShowsAgain};
    ghost use Rattle.panel_parts.specs.Stands.{HasPlan, MayComeInForce, MayTurn, StandsAtOpening};

    /// The parts of a panel before the first tick, whatever the panel is told from elsewhere.
    pub fn new(
        alloc: Global,
        site: &Site,
        plan: &Plan,
        panel: u8,
        kept: &Retained,
    ) -> Result<Parts, NoMemory>
        requires valid { IsValid site.now }
        requires plan { HasPlan site.now plan.now }
        requires member { IsPanel site.now.panels panel }
        ensures { IfOk result (StandsAtOpening site.now kept.now panel) }
    {
        let poller = Poller::new(alloc, site, panel)?;
        let decide = Decide::new(alloc, site, panel, kept)?;
        let hold = Hold::new(alloc, site, panel, kept)?;
        let answers = Lane::new(alloc, 32, 64)?;
        let findings = Lane::new(alloc, 32, 64)?;
        Ok(Parts {
            poller,
            decide,
            hold,
            answers,
            findings,
            supply: Supply::new(&site.waits),
            effects: Effects::new(panel, plan),
            drive: Drive::new(site, panel, kept),
        })
    }

    /// A report comes on a point of the panel.
    pub fn set_point(&mut self, point: u16, state: PointState)
        requires { HasPoint self.old.poller point }
        ensures { HearsPoint self.old point state self.new }
    {
        self.poller.set_point(point, state);
    }

    /// A report comes on a piece of cable of the panel.
    pub fn set_piece(&mut self, line: u8, piece: u8, state: PieceState)
        requires { (1 ≤ line) × (line ≤ 4) }
        ensures { HearsPiece self.old line piece state self.new }
    {
        self.poller.set_piece(line, piece, state);
    }

    /// A report comes on a supply of the panel.
    pub fn set_supply(&mut self, kind: SupplyKind, bad: bool)
        ensures { HearsSupply self.old kind bad self.new }
    {
        self.supply.read(kind, bad);
    }

    /// A confirmation comes of an output of the panel, by its number.
    pub fn confirm(&mut self, number: u8)
        requires { IsNumber number }
        ensures { HearsConfirmation self.old number self.new }
    {
        self.drive.confirm(number);
    }

    /// Poll has its turn.
    pub fn poll_turn(&mut self, now: Tick)
        requires { MayTurn Poll now.0 self.old }
        ensures { MakesTurn self.old Poll now.0 self.new }
    {
        self.poller.turn(now, &mut self.answers);
    }

    /// Decide has its turn.
    pub fn decide_turn(&mut self, now: Tick)
        requires { MayTurn DecideTask now.0 self.old }
        ensures { MakesTurn self.old DecideTask now.0 self.new }
    {
        self.decide.turn(&mut self.answers, &mut self.findings);
    }

    /// Supply has its turn.
    pub fn supply_turn(&mut self, now: Tick)
        requires { MayTurn SupplyTask now.0 self.old }
        ensures { MakesTurn self.old SupplyTask now.0 self.new }
    {
        self.supply.turn(now);
    }

    /// Hold has its turn, with the panels that are silent and the links that are down, a bit each. Tells whether it
    /// shows zones, faults and buzzer as before.
    pub fn hold_turn(&mut self, now: Tick, silent: u8, links: u8) -> bool
        requires { MayTurn HoldTask now.0 self.old }
        ensures turn { MakesHoldTurn self.old now.0 silent links self.new }
        ensures same { result ≡ true → ShowsAgain self.old.hold.shown self.new.hold.shown }
        ensures must { ShowsAgain self.old.hold.shown self.new.hold.shown → result ≡ true }
    {
        let outside = self.outside(silent, links);
        self.hold
            .turn_and_compare(now, &mut self.findings, &outside)
    }

    /// Drive has its turn; `off` has the panel's disabled outputs, bit `number - 1` each.
    pub fn drive_turn(&mut self, now: Tick, off: u32)
        ensures { MakesDriveTurn self.old now.0 off self.new }
    {
        let requests = self.effects.requests();
        self.drive
            .turn(now, &requests, self.effects.released(), off);
    }

    /// An operation was done at a panel of the site, in the tick that ends. It is in force from the next one on.
    pub fn apply(&mut self, panel: u8, done: &DoneOperation, at: Tick)
        requires { MayComeInForce panel (done_from at.0 done.now) self.old }
        ensures { AppliesDone self.old panel (done_from at.0 done.now) self.new }
    {
        if done.panel == panel {
            self.decide.apply(&done.operation, at);
            self.hold.apply(&done.operation, at);
        } else {
            self.hold.apply_elsewhere(at);
        }
    }

    // What the other parts tell Hold, besides silent panels and links that are down.
    fn outside(&self, silent: u8, links: u8) -> Outside
        ensures { TellsHold self.now silent links result }
    {
        Outside {
            supply: self.supply.faults(),
            broken: self.poller.broken(),
            shorted: self.poller.shorted(),
            silent,
            links,
            unconfirmed: self.drive.unconfirmed(),
        }
    }
}
