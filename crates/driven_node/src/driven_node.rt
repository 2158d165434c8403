use panel_edges::MemoryDisk;
use panel_node::Node;
use retained_journal::Journal;

/// A panel by itself with its journal, over a disk in memory.
#[derive(Drop)]
pub struct DrivenNode {
    pub node: Node,
    pub journal: Journal,
    pub disk: MemoryDisk,
    /// The number of the panel.
    pub panel: u8,
    /// Whether a tick has begun whose turns aren't made yet.
    pub has_begun: bool,
    /// How many events happened.
    pub events: u64,
}
