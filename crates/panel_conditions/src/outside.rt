ghost use Rattle.std.specs.Prelude.{◌≡◌};
ghost use Rattle.panel_conditions.specs.Words.{with_missing};

use site_types::{FaultSet, PointSet};

/// What the other parts of a panel tell at a turn.
#[derive(Clone, Copy, Debug, Default, PartialEq, Eq)]
pub struct Outside {
    /// A bit for each supply with a fault, in their order.
    pub supply: u8,
    /// Bit `line - 1` for each loop with an open piece.
    pub broken: u8,
    /// Bit `line - 1` for each loop with a short.
    pub shorted: u8,
    /// Bit `panel - 1` for each panel that is silent.
    pub silent: u8,
    /// Bit `link - 1` for each own link that is down.
    pub links: u8,
    /// Bit `number - 1` for each output without confirmation.
    pub unconfirmed: u32,
}

impl Outside {
    /// The faults of a panel with these missing points.
    pub fn with_missing(&self, missing: PointSet) -> FaultSet
        ensures { result ≡ with_missing missing self.now }
    {
        FaultSet {
            missing,
            broken: self.broken,
            shorted: self.shorted,
            supply: self.supply,
            silent: self.silent,
            links: self.links,
            unconfirmed: self.unconfirmed,
        }
    }
}
