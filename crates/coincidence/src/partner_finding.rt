/// What an answer means for the partner of its zone.
#[derive(Clone, Copy)]
pub struct PartnerFinding {
    /// The partner's number; the zone's own where it has none.
    pub number: u8,
    pub confirmed: bool,
    pub released: bool,
}
