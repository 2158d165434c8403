/// Where a point stands, with the place of its zone.
#[derive(Clone, Copy)]
pub struct Spot {
    pub panel: u8,
    pub line: u8,
    pub address: u8,
    pub zone: u16,
}
