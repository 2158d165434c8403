use tick_units::Items;

/// A loop of a panel: addresses 1 to `last`, an isolator directly after each address listed.
#[derive(Drop)]
pub struct LoopPlan {
    /// 1 to the panels of the site.
    pub panel: u8,
    /// The loop's number at its panel, 1 to 4.
    pub line: u8,
    /// 1 to 96, in format 2 to 192.
    pub last: u8,
    /// Strictly rising, from 1, below `last`.
    pub isolators: Items<u8>,
}
