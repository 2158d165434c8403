ghost use Rattle.std.specs.Prelude.{◌≡◌};
ghost use Rattle.shown_causes.specs.Faults.{told_after, told_last};

/// Until when a panel's face told a fault.
#[derive(Clone, Copy)]
pub struct FaultTold {
    /// Whether it does now.
    pub lasts: bool,
    /// Else the last tick at which it did.
    pub last: Option<u64>,
}

impl FaultTold {
    /// A face after a tick tells a fault or not.
    pub fn after(self, now: u64, fault: bool) -> FaultTold
        ensures { result ≡ told_after now fault self }
    {
        if self.lasts && !fault {
            FaultTold {
                lasts: fault,
                last: Some(now.saturating_sub(1)),
            }
        } else {
            FaultTold {
                lasts: fault,
                last: self.last,
            }
        }
    }

    /// The last tick by now at which a fault was told.
    pub fn last_by(self, now: u64) -> Option<u64>
        ensures { result ≡ told_last now self }
    {
        if self.lasts { Some(now) } else { self.last }
    }
}
