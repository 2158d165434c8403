use panel_links::Frame;

/// A frame that is under way.
#[derive(Clone, Copy)]
pub(crate) struct Posted {
    pub(crate) at: u8,
    pub(crate) frame: Frame,
    /// The tick in which it was handed out.
    pub(crate) sent: u64,
    /// The first tick in which it comes.
    pub(crate) due: u64,
}
