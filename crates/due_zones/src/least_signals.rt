ghost use Rattle.std.specs.Prelude.{◌≡◌, ◌↔◌, IsTrue, None};

/// From which tick on the least signal of a zone counts, of each kind, where there is one.
#[derive(Clone, Copy)]
pub struct LeastSignals {
    /// Of the signals for which the zone is shown.
    pub shown: Option<u64>,
    /// Of those for which outputs act.
    pub out: Option<u64>,
    /// Of those by a manual call point.
    pub by_hand: Option<u64>,
}

impl LeastSignals {
    /// Whether a zone has no signal of any of these kinds.
    pub(crate) fn is_none(&self) -> bool
        ensures { IsTrue result ↔ ((self.now.shown ≡ None) × (self.now.out ≡ None)
            × (self.now.by_hand ≡ None)) }
    {
        self.shown.is_none() && self.out.is_none() && self.by_hand.is_none()
    }
}
