/// What markers are solved over.
#[derive(Clone, Copy, Debug, Default, PartialEq, Eq)]
pub struct Facts {
    /// The released zones of panels 1 to 8, bit `number - 1` each.
    pub zones: [u32; 8],
    /// The zones of panels 1 to 8 of which a manual call point is in alarm.
    pub manual: [u32; 8],
    /// The panels that have a fault, bit `panel - 1` each.
    pub faults: u8,
}
