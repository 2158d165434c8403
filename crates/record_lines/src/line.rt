use site_types::Event;
use tick_units::{Order, Tick};

/// A line of a record.
#[derive(Drop)]
pub enum Line {
    /// A tick begins.
    Tick(Tick),
    /// Something befalls the site in this tick.
    Event(Event),
    /// The order of this tick's turns.
    Order(Order),
    /// The record ends.
    End,
}
