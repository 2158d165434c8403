//! The marks of the panels that may show something else than at the end of the tick before.

use crate::system::System;

impl System {
    ghost use Rattle.std.specs.Prelude.{◌≡◌, ◌≤◌};
    ghost use Rattle.panel_core.specs.Marks.{RaisesMark, RaisesMarks, TellsSame, is_marked};
    ghost use Rattle.panel_core.specs.Stands.{HasPanel};

    /// Whether a panel is marked. Where it isn't, its face is that of the end of the tick before.
    pub fn has_changed(&self, panel: u8) -> bool
        requires { HasPanel panel self.now }
        ensures marked { result ≡ is_marked self.now.changed panel }
        ensures same { TellsSame self.now panel result }
    {
        self.changed[panel as usize - 1]
    }

    // Marks a panel where it shows something else.
    pub(crate) fn mark(&mut self, panel: u8, differs: bool)
        requires { (1 ≤ panel) × (panel ≤ 8) }
        ensures { RaisesMark self.old panel differs self.new }
    {
        let place = panel as usize - 1;
        self.changed[place] = self.changed[place] || differs;
    }

    // Marks all panels where some show something else.
    pub(crate) fn mark_all(&mut self, differ: bool)
        ensures { RaisesMarks self.old differ self.new }
    {
        if differ {
            self.changed = [true; 8];
        }
    }
}
