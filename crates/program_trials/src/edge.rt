/// A part of the outside of which one call may fail.
#[derive(Clone, Copy)]
pub(crate) enum Edge {
    Shelf,
    Disk,
    /// The disk on which a move makes the new journal.
    Target,
    Keeper,
    Output,
}
