use crate::point_set::PointSet;

/// The faults that a panel shows.
#[derive(Clone, Copy, Debug, Default, PartialEq, Eq)]
pub struct FaultSet {
    /// The points that didn't answer.
    pub missing: PointSet,
    /// Bit `line - 1` for each loop with an open piece.
    pub broken: u8,
    /// Bit `line - 1` for each loop with a short.
    pub shorted: u8,
    /// A bit for each supply, in their order.
    pub supply: u8,
    /// Bit `panel - 1` for each panel that is silent.
    pub silent: u8,
    /// Bit `link - 1` for each own link that is down.
    pub links: u8,
    /// Bit `number - 1` for each output without confirmation.
    pub unconfirmed: u32,
}
