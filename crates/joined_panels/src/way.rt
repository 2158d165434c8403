ghost use Rattle.std.specs.Prelude.{◌≡◌, ℕ, ◌+◌, ◌≤◌, ◌↔◌, Bool, true, IsTrue};

/// A way round the ring: whether it is up, since when, and when it last was up for long.
#[derive(Clone, Copy)]
pub(crate) struct Way {
    up: bool,
    /// The tick since which it is as it is.
    since: u64,
    /// The latest tick from which on it was up for so long as is asked, all before that.
    window: Option<u64>,
}

impl Way {
    ghost use Rattle.joined_panels.specs.Latest.{IsLatestTick};
    ghost use Rattle.joined_panels.specs.Stretches.{IsUpFor, IsUpThroughout, KnowsWay};

    pub(crate) const UP: Way = Way {
        up: true,
        since: 0,
        window: None,
    };

    /// Takes whether the way is up at the tick after those that it knows.
    pub(crate) fn take(&mut self, up: bool, now: u64, spread: u64)
        requires { 1 ≤ spread }
        ensures { (was_up : ℕ → Bool) (before : ℕ) → KnowsWay was_up spread before self.old
            → now ≡ before + 1 → was_up now ≡ up → KnowsWay was_up spread now self.new }
    {
        if up != self.up {
            *self = Way {
                up,
                since: now,
                window: self.latest_window(now, spread),
            };
        }
    }

    /// Whether it has been up from a tick on until now.
    pub(crate) fn is_up_since(&self, first: u64, now: u64) -> bool
        ensures { (was_up : ℕ → Bool) (spread : ℕ) → KnowsWay was_up spread now self.now
            → IsTrue result ↔ IsUpThroughout was_up first now }
    {
        first > now || self.up && self.since <= first
    }

    /// The latest tick from which on it was up for the span, all of which is before a tick.
    pub(crate) fn latest_window(&self, now: u64, spread: u64) -> Option<u64>
        requires { 1 ≤ spread }
        ensures { (was_up : ℕ → Bool) (known : ℕ) → KnowsWay was_up spread known self.now
            → known ≤ now → now ≤ known + 1 → IsLatestTick (IsUpFor was_up spread now) result }
    {
        if self.up && now.saturating_sub(self.since) >= spread {
            Some(now - spread)
        } else {
            self.window
        }
    }
}
