/// A task of a panel. Each has one turn in a tick.
#[derive(Clone, Copy, Debug, Default, PartialEq, Eq)]
pub enum Task {
    /// Asks the points of the loops.
    Poll,
    /// Decides which answers count and which alarms are confirmed.
    Decide,
    /// Reads the supplies.
    Supply,
    /// Does what was asked at the desk.
    Desk,
    /// Holds the conditions of the panel.
    Hold,
    /// Sends and takes the words of the ring.
    Link,
    /// Solves the site's causes and effects.
    Effect,
    /// Drives the outputs.
    Drive,
    /// Keeps the site's state. One for the whole site.
    #[default]
    Keep,
}

impl Task {
    /// The tasks that each panel has, in canonical order.
    pub const OF_PANEL: [Task; 8] = [
        Task::Poll,
        Task::Decide,
        Task::Supply,
        Task::Desk,
        Task::Hold,
        Task::Link,
        Task::Effect,
        Task::Drive,
    ];
}
