/// A group of lines that go by number: those of one kind of thing, of zones those of one panel, of points
/// those of one loop.
#[derive(Clone, Copy)]
pub enum Group {
    /// Zones of a panel in alarm.
    Zones(u8),
    /// First states of a panel.
    Firsts(u8),
    /// Points of a loop that don't answer.
    Missing(u8),
    /// Loops with an open piece, and with a short.
    Broken,
    Shorted,
    Supplies,
    /// Panels that aren't heard.
    Silent,
    /// Links that are down.
    Links,
    /// Outputs that wait for a confirmation too long.
    Unconfirmed,
    /// Outputs that are on.
    Outputs,
    Confirmed,
    /// Disabled points of a loop.
    PointsOff(u8),
    ZonesOff,
    OutputsOff,
    /// Zones in test.
    Tests,
}
