use site_types::Word;

/// What a panel sends over a link in a tick: the words of a group of four panels.
#[derive(Clone, Copy, Debug, Default, PartialEq, Eq)]
pub struct Frame {
    /// The panel that sends it.
    pub from: u8,
    /// 0 for panels 1 to 4, 1 for panels 5 to 8.
    pub group: u8,
    /// A place without a panel has the empty word.
    pub words: [Word; 4],
}
