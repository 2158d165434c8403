/// What is known of the log gate, which opens the cells.
#[derive(Clone, Copy, Debug, PartialEq, Eq)]
pub enum LogGate {
    /// It stands shut, and the cells may hold anything.
    Shut,
    /// It may be open, and behind it all cells are zero.
    Ready,
    /// It is open.
    Open,
}
