use crate::label::Label;
use crate::operation::Operation;
use crate::piece_state::PieceState;
use crate::point_state::PointState;
use crate::supply_kind::SupplyKind;

/// What befalls a site in a tick.
#[derive(Clone, Copy)]
pub enum Event {
    Point {
        point: u16,
        state: PointState,
    },
    Cable {
        panel: u8,
        line: u8,
        piece: u8,
        state: PieceState,
    },
    Supply {
        panel: u8,
        kind: SupplyKind,
        bad: bool,
    },
    Link {
        link: u8,
        up: bool,
    },
    /// A routing or protection output is confirmed from outside.
    Confirmed {
        output: u16,
    },
    Op {
        panel: u8,
        code: Option<Label>,
        operation: Operation,
    },
}
