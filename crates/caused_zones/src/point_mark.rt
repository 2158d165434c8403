ghost use Rattle.std.specs.Prelude.{◌≡◌};
ghost use Rattle.caused_zones.specs.Marks.{mark_noted, no_mark};

/// In which ticks answers of a point counted, of those that nothing has undone.
#[derive(Clone, Copy)]
pub struct PointMark {
    /// The last of them, 0 where there is none.
    pub last: u64,
    /// The first of the askings up to the last one of which each counted.
    pub first: u64,
}

impl PointMark {
    /// No answer counted.
    pub fn none() -> PointMark
        ensures { result ≡ no_mark }
    {
        PointMark { last: 0, first: 0 }
    }

    /// An answer counts in a tick, with rounds of so many ticks.
    pub fn counted(self, round: u64, now: u64) -> PointMark
        ensures { result ≡ mark_noted round now self }
    {
        if now > round && self.last == now - round {
            PointMark {
                last: now,
                first: self.first,
            }
        } else {
            PointMark {
                last: now,
                first: now,
            }
        }
    }
}
