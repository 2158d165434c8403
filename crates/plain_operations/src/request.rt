use site_types::Operation;
use tick_units::Tick;

/// An operation that is asked for.
#[derive(Clone, Copy)]
pub struct Request {
    /// Its number over the run, from 1 on.
    pub number: u64,
    pub tick: Tick,
    pub panel: u8,
    /// How many operations of the panel came earlier in the tick.
    pub earlier: usize,
    /// The level that its code opens.
    pub level: u8,
    pub operation: Operation,
}
