use crate::seat::Seat;

/// Why a list of seats isn't an order. Places are counted from 1.
#[derive(Clone, Copy, Debug, PartialEq, Eq)]
pub enum BadOrder {
    /// The seat at this place stands at an earlier one too.
    Repeated { place: usize },
    /// No place is bad, but this seat of the site isn't in the list: the first such one in canonical order.
    Missing { seat: Seat },
    /// The seat at this place isn't one of the site.
    Strange { place: usize },
}
