/// A panel and the place of a zone.
#[derive(Clone, Copy)]
pub(crate) struct Found {
    pub(crate) panel: u8,
    pub(crate) place: usize,
}
