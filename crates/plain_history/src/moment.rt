use site_types::Event;
use tick_units::Task;

/// What befalls a site.
#[derive(Clone, Copy)]
pub enum Moment {
    /// The next tick begins.
    Began,
    Happened(Event),
    /// A task of a panel has its turn; Keep isn't a panel's task.
    Turned { panel: u8, task: Task },
    /// Keep has its turn, which may fail.
    Kept { failed: bool },
}
