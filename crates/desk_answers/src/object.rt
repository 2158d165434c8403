use service_keepers::Visit;

/// A JSON object that is an answer's whole body.
#[derive(Clone, Copy)]
pub enum Object {
    /// What refuses where nothing more is told.
    Empty,
    /// A line of a tick block is refused: its number, from 1, and why.
    RefusedLine { line: u64, refusal: u8 },
    /// Another tick is expected, or none any more (0).
    OtherTick { expected: u64, found: u64 },
    /// Another visit is kept under the number.
    OtherVisit(Visit),
    /// The code's level is below 3.
    Denied { level: u8 },
    /// A visit is kept with the points that it tested.
    Tested { visit: u32, tested: u64 },
    /// Serving ends.
    Stopped,
}
