/// What a turn of Keep answers.
#[derive(Clone, Copy, Debug, PartialEq, Eq)]
pub enum Store {
    /// There was nothing to commit, and what had to be mended was.
    Idle,
    /// The batch is kept.
    Kept,
    /// A call of the disk failed, and the batch isn't kept.
    Failed,
}
