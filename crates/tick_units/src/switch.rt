ghost use Rattle.std.specs.Prelude.{◌≡◌, ◌<◌, ◌≤◌};

use crate::tick::Tick;

/// A value that may change once in a tick. In the tick in which it was set it is still what it was before.
#[derive(Clone, Copy, Debug, PartialEq, Eq)]
pub struct Switch {
    pub was: bool,
    pub now: bool,
    pub since: Tick,
}

impl Switch {
    /// A switch that has this value from the opening on.
    pub fn new(value: bool) -> Switch
        ensures { result ≡ record { was = value; now = value; since = record { 0 = 0 } } }
    {
        Switch {
            was: value,
            now: value,
            since: Tick(0),
        }
    }

    /// Sets the value in this tick, which is in force from the next one on.
    pub fn set(&mut self, value: bool, at: Tick)
        requires { self.old.since.0 < at.0 }
        ensures { self.new ≡ record { was = self.old.now; now = value; since = at } }
    {
        *self = Switch {
            was: self.now,
            now: value,
            since: at,
        };
    }

    /// The value in force in a tick that isn't before the one in which the switch was last set.
    pub fn at(&self, x: Tick) -> bool
        requires { self.now.since.0 ≤ x.0 }
        ensures then { x.0 ≡ self.entry.now.since.0 → result ≡ self.entry.now.was }
        ensures later { self.entry.now.since.0 < x.0 → result ≡ self.entry.now.now }
    {
        if x == self.since { self.was } else { self.now }
    }
}
