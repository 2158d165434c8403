/// What of the outside fails.
#[derive(Clone, Copy)]
pub(crate) enum Edge {
    /// The keeper of the register.
    Keeper,
    /// The reads of the first connection.
    Reads,
    /// The writes to the first connection.
    Writes,
    /// The door.
    Door,
    /// The journal's disk.
    Disk,
}
