//! The turns of a panel's tasks, but for Desk's and Keep's.

ghost use Rattle.std.specs.Prelude.{◌≡◌, false, true};

use crate::system::System;
use cause_effect::Steps;
use std::sync::ledger::Ledger;

impl System {
    ghost use Rattle.panel_core.specs.Changes.{MakesTaskTurn};
    ghost use Rattle.panel_core.specs.PartsShown.{ShowsAgainByHold};
    ghost use Rattle.panel_core.specs.Stands.{MayTurnTask};
    ghost use Rattle.panel_links.specs.Changes.{KeepsZones};
    ghost use Rattle.panel_core.specs.StepCounts.{CountsTurn};
    ghost use Rattle.tick_units.specs.declared.task.Task.TheVariants.{Decide, Drive, Effect, Hold, Link, Poll, Supply};

    pub(crate) fn poll_turn(&mut self, panel: u8)
        requires { MayTurnTask panel Poll self.old }
        ensures turn { MakesTaskTurn self.old panel Poll self.new }
        ensures same { self.new.changed ≡ self.old.changed }
    {
        let parts = &mut self.panels[panel as usize - 1];
        parts.poll_turn(self.tick);
    }

    pub(crate) fn decide_turn(&mut self, panel: u8)
        requires { MayTurnTask panel Decide self.old }
        ensures turn { MakesTaskTurn self.old panel Decide self.new }
        ensures same { self.new.changed ≡ self.old.changed }
    {
        let parts = &mut self.panels[panel as usize - 1];
        parts.decide_turn(self.tick);
    }

    pub(crate) fn supply_turn(&mut self, panel: u8)
        requires { MayTurnTask panel Supply self.old }
        ensures turn { MakesTaskTurn self.old panel Supply self.new }
        ensures same { self.new.changed ≡ self.old.changed }
    {
        let parts = &mut self.panels[panel as usize - 1];
        parts.supply_turn(self.tick);
    }

    // Hold, with what the ring tells of panels and links. Tells whether it shows zones, faults and buzzer as before.
    pub(crate) fn hold_turn(&mut self, panel: u8) -> bool
        requires { MayTurnTask panel Hold self.old }
        ensures turn { MakesTaskTurn self.old panel Hold self.new }
        ensures same { self.new.changed ≡ self.old.changed }
        ensures again { result ≡ true → ShowsAgainByHold self.old panel }
    {
        let limit = self.site.profile().silent();
        let silent = self.ring.silent(panel, self.tick, limit);
        let links = self.ring.links_down(panel);
        let parts = &mut self.panels[panel as usize - 1];
        parts.hold_turn(self.tick, silent, links)
    }

    // Link gives the panel's latest word to the ring and takes what its neighbours keep. It tells whether zones of
    // other panels are other ones now.
    pub(crate) fn link_turn(&mut self, panel: u8) -> bool
        requires { MayTurnTask panel Link self.old }
        ensures turn { MakesTaskTurn self.old panel Link self.new }
        ensures same { self.new.changed ≡ self.old.changed }
        ensures zones { result ≡ false → KeepsZones self.old.ring panel self.new.ring }
    {
        let word = self.panels[panel as usize - 1].hold.word();
        self.ring.telling_turn(self.tick, panel, word)
    }

    // Effect goes by the words that the panel keeps.
    pub(crate) fn effect_turn<L: Ledger>(&mut self, panel: u8, steps: &mut Steps<L>)
        requires { MayTurnTask panel Effect self.old }
        ensures turn { MakesTaskTurn self.old panel Effect self.new }
        ensures same { self.new.changed ≡ self.old.changed }
        ensures steps { CountsTurn self.old panel Effect steps.old steps.new }
    {
        let parts = &mut self.panels[panel as usize - 1];
        parts
            .effects
            .turn_by_words(&self.plan, &self.ring, panel, steps);
    }

    // Drive, with the outputs that are disabled.
    pub(crate) fn drive_turn(&mut self, panel: u8)
        requires { MayTurnTask panel Drive self.old }
        ensures turn { MakesTaskTurn self.old panel Drive self.new }
        ensures same { self.new.changed ≡ self.old.changed }
    {
        let place = panel as usize - 1;
        let off = self.settings.outputs[place];
        let parts = &mut self.panels[place];
        parts.drive_turn(self.tick, off);
    }
}
