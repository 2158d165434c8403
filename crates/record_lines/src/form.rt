//! What the fixed words of a line say, before its numbers and names are read.

use site_types::{Operation, PieceState, PointState, SupplyKind};

/// The row of a line that tells what befalls the site, with what its fixed words say.
#[derive(Clone, Copy)]
pub enum EventForm {
    Point(PointState),
    Cable(PieceState),
    Supply(SupplyKind, bool),
    Link(bool),
    Routing,
    Op(Action),
}

/// What an operation line asks for.
#[derive(Clone, Copy)]
pub enum Action {
    /// An operation that names nothing.
    Plain(Operation),
    Cancel,
    Test,
    Untest,
    Disable(Kind),
    Enable(Kind),
}

/// The kind of what may be disabled.
#[derive(Clone, Copy)]
pub enum Kind {
    Point,
    Zone,
    Output,
}
