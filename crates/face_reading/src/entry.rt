use crate::change::Change;
use face_text::OpAnswer;
use tick_units::Tick;

/// What a line of a text tells, but for the first line.
#[derive(Clone, Copy)]
pub enum Entry {
    /// A face of a panel shows something otherwise than before.
    Change { panel: u8, change: Change },
    /// What was answered to an operation.
    Answer(OpAnswer),
    /// So many operations found a panel busy, at least 1.
    Busy { panel: u8, count: u64 },
    /// Keep's turn failed.
    StoreFailed,
    /// What follows happened in this tick.
    Tick(Tick),
    /// The run is over, with its last tick.
    End(Tick),
}
