use face_text::{Face, Starts};
use panel_edges::SoundMemorySink;
use panel_node::Node;
use retained_journal::Journal;

/// A panel of a site at work by itself, with the journal that it keeps.
#[derive(Drop)]
pub struct NodeRun {
    pub(crate) node: Node,
    pub(crate) journal: Journal,
    /// The number of the panel.
    pub(crate) panel: u8,
    /// What it showed at the end of the tick that was run last, and at the end of the one before.
    pub(crate) shown: Face,
    pub(crate) before: Face,
    /// In how many ticks Keep's turn failed.
    pub(crate) store_failures: u64,
    /// Where the things of each panel begin in the site's lists.
    pub(crate) starts: Starts,
    /// Where the text of a tick is put together before it is written.
    pub(crate) page: SoundMemorySink,
}
