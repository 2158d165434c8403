/// What is found of the first answers of a block: each tells plainly of the zone of its point or of none, and its point
/// is missing or not.
#[derive(Clone, Copy)]
pub struct BlockFindings {
    /// How many answers these are.
    pub count: u8,
    /// Which answers tell of the zone: bit k for the one at place k of the block.
    pub telling: u32,
    /// Whose points are missing.
    pub missing: u32,
}
