//! The lines that most of a record is, read in one pass where a piece begins with the whole of one: the tick
//! that comes next, the order of a tick and what a point is at. They are known as they are printed; every other
//! line, and each that is to be refused, goes the long way.

ghost use Rattle.std.specs.Prelude.{◌≡◌, ◌<◌, ◌≤◌, [], IfSome, decimal, length, map};
ghost use Rattle.record_lines.specs.Printed.{AddsSeats, HasInFront, joined, line_text, point_state_word, seat_text};
ghost use Rattle.record_lines.specs.declared.line.Line.TheVariants.{Event as EventLine, Order as OrderLine};
ghost use Rattle.record_lines.specs.declared.line.Line.TheVariants.{Tick as TickLine};
ghost use Rattle.site_types.specs.Valid.{IsValid};
ghost use Rattle.site_types.specs.declared.event.Event.TheVariants.{Point as PointEvent};
ghost use Rattle.site_types.specs.declared.site.Site.{Site as SiteOf};
ghost use Rattle.tick_units.specs.Ticks.{last_tick};

use crate::named_points::point_named;
use crate::words::task;
use arrayvec::ArrayVec;
use line_fields::split_field;
use site_types::{PointState, Site};
use tick_units::{Seat, Task, Tick};

/// How many bytes the line of a tick takes at the front of a piece, if it stands there.
pub fn tick_in_front(piece: &[u8], tick: Tick) -> Option<usize>
    requires { tick.0 ≤ last_tick }
    ensures { (site : SiteOf)
        → IfSome result (λ used. HasInFront (line_text site (TickLine tick)) piece.now used) }
{
    match piece {
        [b't', b'i', b'c', b'k', b' ', number @ ..] => Some(5 + number_in_front(number, tick.0)?),
        _ => None,
    }
}

// How many bytes a number and a line end take at the front of a text, if they stand there.
fn number_in_front(text: &[u8], number: u64) -> Option<usize>
    requires { number ≤ last_tick }
    ensures { IfSome result (λ used. HasInFront (decimal number) text.now used) }
{
    match text.first_chunk::<11>() {
        // So many bytes are at hand that the loop over the digits needs no look at the end.
        Some(front) => digits_in_front(front, number),
        None => digits_in_front(text, number),
    }
}

// So, with a look at eleven bytes at most: no tick's number has more than ten digits.
#[inline(always)]
fn digits_in_front(text: &[u8], number: u64) -> Option<usize>
    requires { number ≤ last_tick }
    ensures { IfSome result (λ used. HasInFront (decimal number) text.now used) }
{
    let [b'1'..=b'9', ..] = text else {
        return None;
    };
    let room = text.len().min(11);
    let mut value = 0;
    let mut place = 0;
    while place < room {
        let byte = text[place];
        if !byte.is_ascii_digit() {
            return if byte == b'\n' && value == number {
                Some(place + 1)
            } else {
                None
            };
        }
        value = 10 * value + (byte - b'0') as u64;
        place += 1;
    }
    None
}

/// How many bytes the line of an order takes at the front of a piece, if one stands there, and its seats.
pub fn order_in_front(piece: &[u8], seats: &mut ArrayVec<Seat, 65>) -> Option<usize>
    requires { seats.old.items ≡ [] }
    ensures { (site : SiteOf) → IfSome result
        (λ used. HasInFront (line_text site (OrderLine seats.new.items)) piece.now used) }
{
    match piece {
        [b'o', b'r', b'd', b'e', b'r', fields @ ..] => Some(5 + seats_in_front(fields, seats)?),
        _ => None,
    }
}

// How many bytes seats and a line end take at the front of a text, if they stand there, each seat behind a space.
// No order has Keep's seat twice.
fn seats_in_front(text: &[u8], seats: &mut ArrayVec<Seat, 65>) -> Option<usize>
    requires { seats.old.items ≡ [] }
    ensures { IfSome result
        (λ used. HasInFront (joined [] (map seat_text seats.new.items)) text.now used) }
{
    let before = panels_seats(text, seats)?;
    match &text[before..] {
        [b'\n', ..] => Some(before + 1),
        [b' ', b'k', rest @ ..] if !seats.is_full() => {
            seats.push(Seat {
                panel: 0,
                task: Task::Keep,
            });
            let behind = panels_seats(rest, seats)?;
            match &rest[behind..] {
                [b'\n', ..] => Some(before + 2 + behind + 1),
                _ => None,
            }
        }
        _ => None,
    }
}

// How many bytes the seats of panels take at the front of a text. Each takes three, so that what has room is known
// before the first.
fn panels_seats(text: &[u8], seats: &mut ArrayVec<Seat, 65>) -> Option<usize>
    ensures { IfSome result
        (λ used. AddsSeats seats.old.items text.now used seats.new.items) }
{
    let room = text.len().min(3 * seats.remaining_capacity());
    // Where the next panel's number stands.
    let mut place = 2;
    while place < room && text[place - 2] == b' ' {
        let digit = text[place];
        if !digit.is_ascii_digit() {
            break;
        }
        seats.push(Seat {
            panel: digit - b'0',
            task: task(text[place - 1])?,
        });
        place += 3;
    }
    Some(place - 2)
}

/// How many bytes the line of a point takes at the front of a piece, if one stands there, the point and what it
/// is at.
pub fn report_in_front(site: &Site, piece: &[u8]) -> Option<(usize, u16, PointState)>
    requires { IsValid site.now }
    ensures line { IfSome result (λ found. HasInFront
        (line_text site.now (EventLine (PointEvent found.1 found.2))) piece.now found.0) }
    ensures known { IfSome result (λ found. found.1 < length site.now.points) }
{
    match piece {
        [b'p', b'o', b'i', b'n', b't', b' ', named @ ..] => {
            let (name, word) = split_field(named);
            let (used, state) = state_in_front(word)?;
            let point = point_named(site, name)?;
            Some((7 + name.len() + used, point, state))
        }
        _ => None,
    }
}

// How many bytes the word of a point's state and a line end take at the front of a text, if they stand there, and
// the state.
fn state_in_front(text: &[u8]) -> Option<(usize, PointState)>
    ensures { IfSome result (λ found. HasInFront (point_state_word found.1) text.now found.0) }
{
    match text {
        [b'q', b'u', b'i', b'e', b't', b'\n', ..] => Some((6, PointState::Quiet)),
        [b'a', b'l', b'a', b'r', b'm', b'\n', ..] => Some((6, PointState::Alarm)),
        [b'g', b'o', b'n', b'e', b'\n', ..] => Some((5, PointState::Gone)),
        _ => None,
    }
}
