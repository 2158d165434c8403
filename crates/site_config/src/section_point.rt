/// A point of a loop, by the place at which its section begins and the place of its zone.
#[derive(Clone, Copy)]
pub struct SectionPoint {
    pub section: u8,
    pub zone: u16,
}
