//! The line that gives a tick its order.

ghost use Rattle.std.specs.Prelude.{◌≡◌, ◌≤◌, [], IfNone, IfOk, IfSome, length, false, true};
ghost use Rattle.line_fields.specs.Fields.{each_field};
ghost use Rattle.record_lines.specs.Forms.{is_seat};
ghost use Rattle.record_lines.specs.Seats.{is_numbered, order_of, place_of, seat_of, seats_of};
ghost use Rattle.site_types.specs.Fields.{after_space as behind_space, before_space as front};
ghost use Rattle.tick_units.specs.Orders.{IsOrder, IsPanelCount};

use crate::why::Why;
use crate::words::task;
use arrayvec::ArrayVec;
use line_fields::split_field;
use site_types::read_number;
use tick_units::{BadOrder, Order, Seat, Task};

/// The order of these seats.
pub fn make_order(panels: u8, seats: &[Seat]) -> Result<Order, Why>
    requires panels { IsPanelCount panels }
    requires short { length seats.now ≤ 512 }
    ensures answer { result ≡ order_of panels seats.now }
    ensures order { IfOk result (λ order. IsOrder panels order) }
{
    match Order::new(seats, panels) {
        Ok(order) => Ok(order),
        Err(fault) => Err(Why::BadOrder {
            place: place(seats.len(), fault),
        }),
    }
}

/// Reads the seats of so many fields, and answers whether all have numbers of the record's form; none where
/// a field isn't of a seat's form.
pub fn read_seats(fields: &[u8], count: usize, seats: &mut ArrayVec<Seat, 512>) -> Option<bool>
    requires count { count ≤ 512 }
    requires empty { seats.old.items ≡ [] }
    ensures formed { IfSome result (λ numbered. each_field is_seat count fields.now ≡ true) }
    ensures numbered { IfSome result (λ numbered. numbered
        ≡ each_field is_numbered count fields.now) }
    ensures seats { IfSome result (λ numbered. seats.new.items ≡ seats_of count fields.now) }
    ensures none { IfNone result (each_field is_seat count fields.now ≡ false) }
{
    let mut numbered = true;
    let mut rest = fields;
    for _seat in 0..count {
        let (seat, has_number, behind) = first_seat(rest)?;
        seats.push(seat);
        numbered = numbered && has_number;
        rest = behind;
    }
    Some(numbered)
}

// The seat of the first field, if it is of a seat's form, whether it has a number of the record's form, and
// what follows the field. A letter and a digit, or `k`, is what a site's own orders have.
fn first_seat(text: &[u8]) -> Option<(Seat, bool, &[u8])>
    ensures formed { IfSome result (λ read. is_seat (front text.now) ≡ true) }
    ensures seat { IfSome result (λ read. read.0 ≡ seat_of (front text.now)) }
    ensures numbered { IfSome result (λ read. read.1 ≡ is_numbered (front text.now)) }
    ensures behind { IfSome result (λ read. read.2.now ≡ behind_space text.now) }
    ensures none { IfNone result (is_seat (front text.now) ≡ false) }
{
    match text {
        [letter, digit, b' ', behind @ ..] if digit.is_ascii_digit() => {
            let task = task(*letter)?;
            let panel = *digit - b'0';
            Some((Seat { panel, task }, true, behind))
        }
        [b'k', b' ', behind @ ..] => Some((
            Seat {
                panel: 0,
                task: Task::Keep,
            },
            true,
            behind,
        )),
        _ => {
            let (field, behind) = split_field(text);
            let (seat, has_number) = read_seat(field)?;
            Some((seat, has_number, behind))
        }
    }
}

// The seat of a field, if it is of a seat's form, and whether it has a number of the record's form. A number
// above 255 is no panel's either.
fn read_seat(text: &[u8]) -> Option<(Seat, bool)>
    ensures formed { IfSome result (λ read. is_seat text.now ≡ true) }
    ensures seat { IfSome result (λ read. read.0 ≡ seat_of text.now) }
    ensures numbered { IfSome result (λ read. read.1 ≡ is_numbered text.now) }
    ensures none { IfNone result (is_seat text.now ≡ false) }
{
    match text {
        [] => None,
        [b'k'] => Some((
            Seat {
                panel: 0,
                task: Task::Keep,
            },
            true,
        )),
        [letter, number @ ..] => {
            let task = task(*letter)?;
            let (panel, has_number) = match read_number(number) {
                Some(number) => (number.min(255) as u8, true),
                None => (0, false),
            };
            Some((Seat { panel, task }, has_number))
        }
    }
}

// The place that a refusal tells.
fn place(seats: usize, fault: BadOrder) -> usize
    requires { seats ≤ 512 }
    ensures { result ≡ place_of seats fault }
{
    match fault {
        BadOrder::Repeated { place } | BadOrder::Strange { place } => place,
        BadOrder::Missing { .. } => seats + 1,
    }
}
