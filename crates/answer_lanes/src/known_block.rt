/// A block whose places in a set are kept.
#[derive(Clone, Copy, Debug, Default)]
pub struct KnownBlock {
    /// The first place of each eight.
    pub firsts: [u16; 4],
    /// Which places of the eights the set has, a bit for each, those of the first eight lowest.
    pub word: u32,
}
