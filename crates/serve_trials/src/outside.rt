use crate::edge::Edge;

/// How the outside takes the calls that are made of it. A call that fails is given by its number, from 1; 0 is none.
#[derive(Clone, Copy)]
pub(crate) struct Outside {
    pub(crate) keeper: u64,
    /// The read and the write that fail of the first connection.
    pub(crate) read: u64,
    pub(crate) write: u64,
    pub(crate) door: u64,
    pub(crate) disk: u64,
    /// The write that fails of what serving itself tells.
    pub(crate) telling: u64,
}

/// One that never fails.
pub(crate) const SOUND: Outside = Outside {
    keeper: 0,
    read: 0,
    write: 0,
    door: 0,
    disk: 0,
    telling: 0,
};

impl Outside {
    /// An outside of which this call of an edge fails.
    pub(crate) fn failing(self, edge: Edge, number: u64) -> Outside {
        match edge {
            Edge::Keeper => Outside {
                keeper: number,
                ..self
            },
            Edge::Reads => Outside {
                read: number,
                ..self
            },
            Edge::Writes => Outside {
                write: number,
                ..self
            },
            Edge::Door => Outside {
                door: number,
                ..self
            },
            Edge::Disk => Outside {
                disk: number,
                ..self
            },
        }
    }
}
