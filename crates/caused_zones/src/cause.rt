ghost use Rattle.std.specs.Prelude.{◌≡◌};
ghost use Rattle.caused_zones.specs.Causes.{cause_ended, cause_given, last_caused, no_cause};

/// Until when a zone was caused.
#[derive(Clone, Copy)]
pub struct Cause {
    /// Whether it still is.
    pub stands: bool,
    /// Else the last tick at which it was, 0 where there is none.
    pub until: u64,
}

impl Cause {
    /// The cause of a zone that was never caused to be in alarm.
    pub fn none() -> Cause
        ensures { result ≡ no_cause }
    {
        Cause {
            stands: false,
            until: 0,
        }
    }

    /// Nothing of what was given up to a tick causes it any more.
    pub fn ended(self, at: u64) -> Cause
        ensures { result ≡ cause_ended at self }
    {
        if self.stands {
            Cause {
                stands: false,
                until: at,
            }
        } else {
            self
        }
    }

    /// The cause stands from now on.
    pub fn given(self) -> Cause
        ensures { result ≡ cause_given self }
    {
        Cause {
            stands: true,
            until: self.until,
        }
    }

    /// The last tick by now at which it was caused, 0 where there is none.
    pub fn last(self, now: u64) -> u64
        ensures { result ≡ last_caused now self }
    {
        if self.stands { now } else { self.until }
    }
}
