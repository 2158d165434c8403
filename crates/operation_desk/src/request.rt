use site_types::Operation;
use tick_units::Tick;

/// An operation that is asked for and has its answer yet to come.
#[derive(Clone, Copy, Debug)]
pub struct Request {
    /// Its number over the run, from 1 on.
    pub number: u64,
    pub tick: Tick,
    pub panel: u8,
    /// How many operations of the panel came earlier in the tick.
    pub earlier: u64,
    /// The level that its code opens.
    pub level: u8,
    pub operation: Operation,
}

impl Default for Request {
    fn default() -> Request {
        Request {
            number: 0,
            tick: Tick(0),
            panel: 0,
            earlier: 0,
            level: 0,
            operation: Operation::Mute,
        }
    }
}
