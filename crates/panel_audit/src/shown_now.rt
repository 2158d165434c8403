ghost use Rattle.std.specs.Prelude.{◌≡◌, ◌+◌, ◌≤◌, ℕ, length};
ghost use Rattle.audit_rules.specs.Shown.{faces_after};

use face_text::{Face, Step, Timeline};
use tick_units::Tick;

/// How far a text is read: what its panels show after a tick.
#[derive(Clone, Copy)]
pub(crate) struct ShownNow {
    /// How many steps of the text lie behind.
    steps: usize,
}

impl ShownNow {
    ghost use Rattle.shown_causes.specs.Faults.{DoStepsRise};
    ghost use Rattle.panel_audit.specs.ShownSteps.{ReadsUpTo};

    /// Before the first tick.
    pub(crate) const OPENED: ShownNow = ShownNow { steps: 0 };

    /// Goes on to the next tick.
    pub(crate) fn take_tick(&mut self, steps: &[Step], now: Tick)
        ensures { (before : ℕ) → DoStepsRise steps.now → ReadsUpTo steps.now before self.old.steps
            → now.0 ≡ before + 1 → ReadsUpTo steps.now now.0 self.new.steps }
    {
        if let Some(step) = steps.get(self.steps) {
            if step.tick <= now {
                self.steps += 1;
            }
        }
    }

    /// The faces after the tick, by panel.
    pub(crate) fn faces<'a>(&self, timeline: &'a Timeline) -> &'a [Face]
        ensures { (tick : ℕ) → ReadsUpTo timeline.now.steps tick self.now.steps
            → result.now ≡ faces_after tick timeline.now.opened timeline.now.steps }
    {
        if self.steps == 0 {
            return timeline.opened.as_slice();
        }
        match timeline.steps.as_slice().get(self.steps - 1) {
            Some(step) => step.faces.as_slice(),
            None => timeline.opened.as_slice(),
        }
    }
}
