use tick_units::Tick;

/// What is kept of an output that has a delay.
#[derive(Clone, Copy, Default)]
pub struct Timer {
    /// Its bit in a mask.
    pub place: u8,
    /// In ticks.
    pub delay: u16,
    /// The turn at which the present request began, if there is one.
    pub since: Option<Tick>,
}

impl Timer {
    ghost use Rattle.std.specs.Prelude.{◌≡◌};
    ghost use Rattle.output_delays.specs.Timers.{is_holding, turned};

    /// The timer after a turn of a tick.
    pub fn turn(self, now: Tick, asked: bool) -> Timer
        ensures { result ≡ turned now asked self }
    {
        let since = if asked {
            Some(self.since.unwrap_or(now))
        } else {
            None
        };
        Timer { since, ..self }
    }

    /// Whether it holds its output back, with the latest override before this tick.
    pub fn is_holding(self, now: Tick, overridden: Option<Tick>) -> bool
        ensures { result ≡ is_holding now overridden self }
    {
        let Some(first) = self.since else {
            return false;
        };
        let is_over = match overridden {
            Some(tick) => first.0 <= tick.0,
            None => false,
        };
        !is_over && now.0.saturating_sub(first.0) < self.delay as u64
    }
}
