ghost use Rattle.std.specs.Prelude.{◌≡◌};
ghost use Rattle.tick_units.specs.LastTicks.{last_after, last_at, last_if, never_done};

use crate::tick::Tick;

/// The latest tick in which something was done, and the latest one before that tick. 0 stands for none.
#[derive(Clone, Copy, Debug, PartialEq, Eq)]
pub struct LastDone {
    pub tick: Tick,
    pub earlier: Tick,
}

impl LastDone {
    pub fn never() -> LastDone
        ensures { result ≡ never_done }
    {
        LastDone {
            tick: Tick(0),
            earlier: Tick(0),
        }
    }

    /// The latest tick before `x`, where `x` isn't before the latest of all.
    pub fn before(&self, x: Tick) -> Tick
        ensures { result.0 ≡ last_at x.0 self.now }
    {
        if self.tick.0 < x.0 {
            self.tick
        } else {
            self.earlier
        }
    }

    /// Notes that the operation was done again in this tick, which isn't before the latest.
    pub fn raise(&mut self, at: Tick)
        ensures { self.new ≡ last_after at self.old }
    {
        if self.tick.0 < at.0 {
            *self = LastDone {
                tick: at,
                earlier: self.tick,
            };
        }
    }

    /// If `on`, it was done again in this tick.
    pub fn raise_if(&mut self, on: bool, at: Tick)
        ensures { self.new ≡ last_if on at self.old }
    {
        if on {
            self.raise(at);
        }
    }
}
