/// What a marker asks for.
#[derive(Clone, Copy, Debug, PartialEq, Eq)]
pub enum Term {
    /// The zone at this place is released.
    Zone(u16),
    /// A manual call point of the zone at this place is in alarm.
    Manual(u16),
    /// This panel has a fault.
    Fault(u8),
    /// The marker at this place is true.
    Marker(u16),
}
