use crate::task::Task;

/// A task of a panel, which has one turn in each tick. The panel of Keep is 0.
#[derive(Clone, Copy, Debug, Default, PartialEq, Eq)]
pub struct Seat {
    pub panel: u8,
    pub task: Task,
}
