ghost use Rattle.std.specs.Prelude.{◌≡◌, reverse};
ghost use Rattle.tick_units.specs.Orders.{IsOrder, IsPanelCount, canonical_seats};

use arrayvec::ArrayVec;
use tick_units::{Order, Seat};

/// The canonical order backwards.
pub fn reversed_order(panels: u8) -> Order
    requires { IsPanelCount panels }
    ensures seats { result ≡ reverse (canonical_seats panels) }
    ensures order { IsOrder panels result }
{
    let canonical = Order::canonical(panels);
    let mut seats: ArrayVec<Seat, 65> = ArrayVec::new();
    for place in 0..canonical.len() {
        seats.push(canonical.seat(place));
    }
    seats.as_mut_slice().reverse();
    match Order::new(seats.as_slice(), panels) {
        Ok(order) => order,
        // Backwards it is an order too.
        Err(_) => canonical,
    }
}
