use site_types::Event;

/// What was drawn for a tick.
#[derive(Clone, Copy)]
pub struct Drawn {
    pub event: Option<Event>,
    /// Whether its turns come in canonical order backwards.
    pub reversed: bool,
}
