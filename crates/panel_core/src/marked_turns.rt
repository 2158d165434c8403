//! The turns that may change what a panel shows, each of which marks it where it does.

ghost use Rattle.std.specs.Prelude.{◌≡◌};

use crate::outputs_shown::OutputsShown;
use crate::system::System;

impl System {
    ghost use Rattle.panel_core.specs.Changes.{MakesTaskTurn};
    ghost use Rattle.panel_core.specs.Marks.{MarksTurn};
    ghost use Rattle.panel_core.specs.PartsShown.{ShowsByDrive};
    ghost use Rattle.panel_core.specs.Stands.{HasPanel, MayTurnTask};
    ghost use Rattle.tick_units.specs.declared.task.Task.TheVariants.{Drive, Hold, Link};

    pub(crate) fn marked_hold_turn(&mut self, panel: u8)
        requires { MayTurnTask panel Hold self.old }
        ensures turn { MakesTaskTurn self.old panel Hold self.new }
        ensures marks { MarksTurn self.old panel Hold self.new.changed }
    {
        let same = self.hold_turn(panel);
        self.mark(panel, !same);
    }

    pub(crate) fn marked_link_turn(&mut self, panel: u8)
        requires { MayTurnTask panel Link self.old }
        ensures turn { MakesTaskTurn self.old panel Link self.new }
        ensures marks { MarksTurn self.old panel Link self.new.changed }
    {
        let differs = self.link_turn(panel);
        self.mark(panel, differs);
    }

    pub(crate) fn marked_drive_turn(&mut self, panel: u8)
        requires { MayTurnTask panel Drive self.old }
        ensures turn { MakesTaskTurn self.old panel Drive self.new }
        ensures marks { MarksTurn self.old panel Drive self.new.changed }
    {
        let before = self.shown_by_drive(panel);
        self.drive_turn(panel);
        let after = self.shown_by_drive(panel);
        self.mark(panel, !after.is_same(&before));
    }

    // What Drive shows of a panel.
    fn shown_by_drive(&self, panel: u8) -> OutputsShown
        requires { HasPanel panel self.now }
        ensures { ShowsByDrive self.now panel result }
    {
        let drive = &self.panels[panel as usize - 1].drive;
        OutputsShown {
            on: drive.on(),
            confirmed: drive.confirmed(),
        }
    }
}
