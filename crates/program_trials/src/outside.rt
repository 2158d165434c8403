use crate::edge::Edge;

/// How the outside takes the calls that are made of it. A call that fails is given by its number, from 1; 0 is none.
#[derive(Clone, Copy)]
pub(crate) struct Outside {
    /// How many bytes a read gives at most.
    pub(crate) piece: usize,
    /// How many bytes a write takes at most.
    pub(crate) take: usize,
    pub(crate) fetch: u64,
    pub(crate) read: u64,
    pub(crate) write: u64,
    /// The first and the last of the calls of the disk that fail.
    pub(crate) disk: (u64, u64),
    /// The first and the last of those of the disk on which a move makes the new journal.
    pub(crate) target: (u64, u64),
    /// The call of the door that fails. Behind its start each does, since no connection comes.
    pub(crate) door: u64,
    /// The call of the register's keeper that fails.
    pub(crate) keeper: u64,
}

impl Outside {
    /// This outside, of which one more call fails.
    pub(crate) fn failing(self, edge: Edge, number: u64) -> Outside {
        let mut outside = self;
        match edge {
            Edge::Shelf => outside.fetch = number,
            Edge::Disk => outside.disk = (number, number),
            Edge::Target => outside.target = (number, number),
            Edge::Keeper => outside.keeper = number,
            Edge::Output => outside.write = number,
        }
        outside
    }
}

/// One that never fails, gives what is asked for and takes what is given.
pub(crate) const SOUND: Outside = Outside {
    piece: 65_536,
    take: 65_536,
    fetch: 0,
    read: 0,
    write: 0,
    disk: (0, 0),
    target: (0, 0),
    door: 0,
    keeper: 0,
};
