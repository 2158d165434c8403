use tick_units::Tick;

/// The latest two ticks with an override.
#[derive(Clone, Copy)]
pub struct Overrides {
    /// The latest.
    pub latest: Option<Tick>,
    /// The one before it.
    pub before: Option<Tick>,
}

impl Overrides {
    ghost use Rattle.std.specs.Prelude.{◌≡◌, ◌∷◌, ℕ, List};
    ghost use Rattle.output_delays.specs.Overrides.{AllUpTo, last_before};
    ghost use Rattle.output_delays.specs.Kept.{Keeps};

    pub const NONE: Overrides = Overrides {
        latest: None,
        before: None,
    };

    /// These overrides and one in a tick that isn't before them.
    pub fn note(self, at: Tick) -> Overrides
        ensures { (ticks : List ℕ) → Keeps ticks self → AllUpTo at.0 ticks
            → Keeps (at.0 ∷ ticks) result }
    {
        match self.latest {
            Some(tick) if tick.0 == at.0 => self,
            _ => Overrides {
                latest: Some(at),
                before: self.latest,
            },
        }
    }

    /// The latest override before a tick, where none was after it.
    pub fn last_before(self, now: Tick) -> Option<Tick>
        ensures { (ticks : List ℕ) → Keeps ticks self → AllUpTo now.0 ticks
            → result ≡ last_before now.0 ticks }
    {
        match self.latest {
            Some(tick) if tick.0 < now.0 => self.latest,
            _ => self.before,
        }
    }
}
