use tick_units::Tick;

/// What is kept of a routing or protection output.
#[derive(Clone, Copy, Default)]
pub struct WatchedOutput {
    /// Its bit in a mask.
    pub place: u8,
    /// The turn since which it has been on, if it is.
    pub since: Option<Tick>,
}

impl WatchedOutput {
    ghost use Rattle.std.specs.Prelude.{◌≡◌};
    ghost use Rattle.routing_outputs.specs.WatchedOutputs.{is_late, turned};

    /// What is kept of the output after a turn of a tick.
    pub fn turn(self, now: Tick, on: bool) -> WatchedOutput
        ensures { result ≡ turned now on self }
    {
        let since = if on {
            Some(self.since.unwrap_or(now))
        } else {
            None
        };
        WatchedOutput { since, ..self }
    }

    /// Whether it has been on for the limit.
    pub fn is_late(self, now: Tick, limit: u64) -> bool
        ensures { result ≡ is_late now limit self }
    {
        match self.since {
            Some(first) => now.0.saturating_sub(first.0) >= limit,
            None => false,
        }
    }
}
