//! The turns of the panel's tasks, but for Keep's.

ghost use Rattle.std.specs.Prelude.{◌≡◌, ◌<◌};

use crate::node::Node;
use cause_effect::Steps;
use kept_facts::facts_kept;
use std::marker::Brand;
use std::sync::ledger::{Blank, Ledger};

impl Node {
    ghost use Rattle.panel_node.specs.Changes.{MakesOwnTurns, MakesTurn};
    ghost use Rattle.panel_node.specs.Stands.{MayTurn, MayTurnOwn};
    ghost use Rattle.tick_units.specs.declared.task.Task.TheVariants.{Decide, Desk, Drive, Effect, Hold, Link, Poll};
    ghost use Rattle.tick_units.specs.declared.task.Task.TheVariants.{Supply};

    // Each task of the panel has its turn, in canonical order.
    pub(crate) fn own_turns(&mut self)
        requires { MayTurnOwn self.old }
        ensures turns { MakesOwnTurns self.old self.new }
        ensures digest { self.new.digest ≡ self.old.digest }
    {
        self.poll_turn();
        self.decide_turn();
        self.supply_turn();
        self.desk_turn();
        self.hold_turn();
        self.link_turn();
        // the counter of steps is let go
        self.effect_turn::<Brand>(Blank::new(1));
        self.drive_turn();
    }

    fn poll_turn(&mut self)
        requires { MayTurn Poll self.old }
        ensures turn { MakesTurn self.old Poll self.new }
        ensures digest { self.new.digest ≡ self.old.digest }
    {
        self.parts.poll_turn(self.tick);
    }

    fn decide_turn(&mut self)
        requires { MayTurn Decide self.old }
        ensures turn { MakesTurn self.old Decide self.new }
        ensures digest { self.new.digest ≡ self.old.digest }
    {
        self.parts.decide_turn(self.tick);
    }

    fn supply_turn(&mut self)
        requires { MayTurn Supply self.old }
        ensures turn { MakesTurn self.old Supply self.new }
        ensures digest { self.new.digest ≡ self.old.digest }
    {
        self.parts.supply_turn(self.tick);
    }

    fn desk_turn(&mut self)
        requires { MayTurn Desk self.old }
        ensures turn { MakesTurn self.old Desk self.new }
        ensures digest { self.new.digest ≡ self.old.digest }
    {
        self.desk.turn(&self.site, &self.settings, self.panel);
    }

    // Hold, with the panels of which nothing newer came for too long, and the links over which no frame did.
    fn hold_turn(&mut self)
        requires { MayTurn Hold self.old }
        ensures turn { MakesTurn self.old Hold self.new }
        ensures digest { self.new.digest ≡ self.old.digest }
    {
        let limit = self.site.profile().silent();
        let silent = self.words.silent(self.tick, limit);
        let links = self.words.links_down(self.tick, limit);
        self.parts.hold_turn(self.tick, silent, links);
    }

    // Link keeps the panel's latest word.
    fn link_turn(&mut self)
        requires { MayTurn Link self.old }
        ensures turn { MakesTurn self.old Link self.new }
        ensures digest { self.new.digest ≡ self.old.digest }
    {
        let word = self.parts.hold.word();
        self.words.keep_own(word);
    }

    // Effect goes by the words that the panel keeps.
    fn effect_turn<L: Ledger>(&mut self, blank: Blank)
        requires may { MayTurn Effect self.old }
        requires name { blank.name ≡ L.name }
        requires parts { blank.parts ≡ L.parts }
        requires some { 0 < blank.parts }
        ensures turn { MakesTurn self.old Effect self.new }
        ensures digest { self.new.digest ≡ self.old.digest }
    {
        let facts = facts_kept(&self.words, self.site.panels);
        let mut steps: Steps<L> = Steps::new(blank);
        self.parts
            .effects
            .turn(&self.plan, self.panel, &facts, &mut steps);
    }

    // Drive, with the outputs that are disabled.
    fn drive_turn(&mut self)
        requires { MayTurn Drive self.old }
        ensures turn { MakesTurn self.old Drive self.new }
        ensures digest { self.new.digest ≡ self.old.digest }
    {
        let off = self.settings.outputs[self.panel as usize - 1];
        self.parts.drive_turn(self.tick, off);
    }
}
