use site_types::Operation;
use tick_units::Tick;

/// An operation that was done, and the tick in which it was.
#[derive(Clone, Copy)]
pub struct DoneOperation {
    pub tick: Tick,
    pub panel: u8,
    pub operation: Operation,
}
