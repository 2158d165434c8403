/// An unbroken run of turns at which a supply was bad.
#[derive(Clone, Copy)]
pub struct BadRun {
    /// The tick of the latest turn.
    pub latest: u64,
    /// The least tick of a turn.
    pub least: u64,
}
