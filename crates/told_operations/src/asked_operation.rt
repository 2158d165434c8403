use site_types::Operation;
use tick_units::Tick;

/// An operation that a record asks for. Its number is its place in the record's list of them, counted from 1.
#[derive(Clone, Copy, Debug, PartialEq, Eq)]
pub struct AskedOperation {
    /// In which it is asked for.
    pub tick: Tick,
    pub panel: u8,
    /// That its code opens, 1 to 4.
    pub level: u8,
    pub operation: Operation,
}
