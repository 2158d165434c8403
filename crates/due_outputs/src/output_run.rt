//! The ticks without a gap in which an output is asked.

ghost use Rattle.std.specs.Prelude.{◌≡◌, ◌+◌, ◌≤◌, ◌⊎◌, ◌↔◌, IsTrue, true};

/// What is kept of the ticks in which an output is due to be asked.
#[derive(Clone, Copy)]
pub(crate) struct OutputRun {
    /// The first tick of the run that lasts, 0 where none does.
    pub since: u64,
    /// It is due to be asked by hand.
    pub by_hand: bool,
}

impl OutputRun {
    ghost use Rattle.due_outputs.specs.Runs.{output_run_with};

    pub(crate) const NONE: OutputRun = OutputRun {
        since: 0,
        by_hand: false,
    };

    /// The run after one more tick.
    pub(crate) fn with(self, now: u64, asked: bool, by_hand: bool) -> OutputRun
        ensures { result ≡ output_run_with now asked by_hand self }
    {
        let since = if !asked {
            0
        } else if self.since == 0 {
            now
        } else {
            self.since
        };
        OutputRun { since, by_hand }
    }

    /// Whether it is due by hand, or has been due for as long as a delay.
    pub(crate) fn is_over(self, now: u64, delay: u16) -> bool
        ensures { IsTrue result ↔ ((self.by_hand ≡ true)
            ⊎ ((1 ≤ self.since) × (self.since + delay ≤ now))) }
    {
        self.by_hand || self.since > 0 && now >= delay as u64 && now - delay as u64 >= self.since
    }
}
