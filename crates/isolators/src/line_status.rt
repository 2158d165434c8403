/// What is wrong with the cable of a loop.
#[derive(Clone, Copy, Debug, Default, PartialEq, Eq)]
pub struct LineStatus {
    /// A piece is open.
    pub broken: bool,
    /// A piece is short.
    pub shorted: bool,
}
