/// How much a file has.
#[derive(Clone, Copy, Debug, PartialEq, Eq)]
pub struct Imported {
    /// Its distinct visits.
    pub visits: u32,
    /// Its distinct pairs of a visit and a point.
    pub tests: u32,
}
