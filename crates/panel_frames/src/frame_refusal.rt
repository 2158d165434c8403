use thiserror::Error;

/// Why a frame isn't taken: the first cause that applies.
#[derive(Clone, Copy, Debug, PartialEq, Eq, Error)]
pub enum FrameRefusal {
    /// It hasn't 136 bytes.
    #[error("not as long as a frame")]
    BadLength,
    /// It doesn't begin with `FW`.
    #[error("not a frame")]
    BadMagic,
    /// It has the digest of another site.
    #[error("a frame of another site")]
    OtherSite,
    /// The panel that sends it is no neighbour.
    #[error("a frame of panel {0}, which is no neighbour")]
    NotNeighbour(u8),
    /// The site has no such group of panels.
    #[error("no group {0}")]
    BadGroup(u8),
    /// A byte of the words is out of the grammar.
    #[error("out of the grammar at byte {offset}")]
    BadWord { offset: u8 },
}
