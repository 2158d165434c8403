/// What stands after the last tick of a drill.
#[derive(Clone, Copy, Debug, PartialEq, Eq)]
pub struct Summary {
    /// The zones in alarm at their own panels.
    pub zones: usize,
    /// The outputs that are on.
    pub outputs: usize,
    /// The sum of the panels' counters.
    pub counter: u64,
}
