use site_types::Operation;
use tick_units::Tick;

/// An operation that was done.
#[derive(Clone, Copy)]
pub struct Done {
    pub tick: Tick,
    pub panel: u8,
    pub operation: Operation,
}
