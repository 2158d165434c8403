ghost use Rattle.std.specs.Prelude.{◌≡◌, ◌+◌, ◌*◌, ◌<◌, ◌≤◌, ◌↔◌, [], ◌∷◌, ◌++◌, ℕ, length, IfOk, IfErr, IsOk, OnOk};
ghost use Rattle.std.specs.Prelude.{MatchResult, Some, None, IfSome, IsSome, slice_get, if◌then◌else◌};
ghost use Rattle.tick_units.specs.Orders.{IsPanelCount, IsOrder, IsSound, IsStrangeAt, IsRepeatedAt, IsFirstMissing};
ghost use Rattle.tick_units.specs.Orders.{canonical_seats, panel_seats, order_fault, first_missing};
ghost use Rattle.tick_units.specs.Orders.{is_among as among};
ghost use Rattle.tick_units.specs.declared.order_fault.BadOrder.TheVariants.{Repeated, Strange};
ghost use Rattle.tick_units.specs.declared.seat.Seat.{Seat as SeatOf};

use crate::order_fault::BadOrder;
use crate::seat::Seat;
use crate::seat_set::SeatSet;
use crate::task::Task;
use arrayvec::ArrayVec;
use std::marker::Model;

/// The seats of a site of at most 8 panels in the order of their turns. Contracts see it as the list of its seats.
#[derive(Drop)]
pub struct Order {
    seats: ArrayVec<Seat, 65>,
}

impl Model for Order {
    ghost use Rattle.std.specs.Prelude.{List};
    ghost use Rattle.tick_units.specs.declared.seat.Seat.{Seat};

    ghost Value = { List Seat };

    ghost view = { λ order. order.seats.items };
}

impl Order {
    /// The order of these seats, if each seat of a site of so many panels is among them once and no other is. The
    /// least place with a seat that isn't of the site, or that stands at an earlier place, decides the refusal.
    pub fn new(seats: &[Seat], panels: u8) -> Result<Order, BadOrder>
        requires { IsPanelCount panels }
        ensures same { IfOk result (λ order. order ≡ seats.now) }
        ensures order { IsOk result ↔ IsOrder panels seats.now }

        // Each refusal, and the place or the seat that it names.
        ensures strange { (place : ℕ)
            → (result ≡ Err (BadOrder.Strange place)) ↔ IsStrangeAt panels seats.now place }
        ensures repeated { (place : ℕ)
            → (result ≡ Err (BadOrder.Repeated place)) ↔ IsRepeatedAt panels seats.now place }
        ensures missing { (seat : SeatOf)
            → (result ≡ Err (BadOrder.Missing seat)) ↔ IsFirstMissing panels seats.now seat }

        // The refusal as a function of the seats, for those that read orders.
        ensures answer { MatchResult result (λ _. order_fault panels seats.now ≡ None)
            (λ fault. order_fault panels seats.now ≡ Some fault) }
    {
        check_seats(seats, panels)?;
        match missing_seat(seats, panels) {
            Some(seat) => Err(BadOrder::Missing { seat }),
            None => Ok(Order::of_seats(seats)),
        }
    }

    /// The order of these seats, if each seat of a site of so many panels is among them once and no other is. It is
    /// made where they stand. What is wrong with others [`Order::new`] tells.
    #[inline(always)]
    pub fn of(seats: ArrayVec<Seat, 65>, panels: u8) -> Option<Order>
        requires { IsPanelCount panels }
        ensures same { IfSome result (λ order. order ≡ seats.items) }
        ensures order { IsSome result ↔ IsOrder panels seats.items }
    {
        if seats.len() != seat_count(panels) || check_seats(&seats, panels).is_err() {
            return None;
        }
        Some(Order { seats })
    }

    /// The order of a tick for which none is given: the eight tasks of panel 1, those of panel 2, and so on, with
    /// Keep last.
    pub fn canonical(panels: u8) -> Order
        requires { IsPanelCount panels }
        ensures seats { result ≡ canonical_seats panels }
        ensures order { IsOrder panels result }
    {
        let mut seats = ArrayVec::new();
        for before in 0..panels {
            push_panel(&mut seats, before + 1);
        }
        seats.push(Seat {
            panel: 0,
            task: Task::Keep,
        });
        Order { seats }
    }

    /// The seat at this place, counted from 0.
    pub fn seat(&self, place: usize) -> Seat
        requires { place < length self.now }
        ensures { slice_get self.now place ≡ Some result }
    {
        self.seats[place]
    }

    /// How many seats there are.
    pub fn len(&self) -> usize
        ensures count { result ≡ length self.now }
        ensures few { result ≤ 65 }
    {
        self.seats.len()
    }

    // The order of these seats.
    fn of_seats(seats: &[Seat]) -> Order
        requires { length seats.now ≤ 65 }
        ensures { result ≡ seats.now }
    {
        let mut order = Order {
            seats: ArrayVec::new(),
        };
        let _room = order.seats.try_extend_from_slice(seats);
        order
    }

    // The first of these seats that isn't among the others.
    fn first_missing(&self, others: &[Seat]) -> Option<Seat>
        ensures { result ≡ first_missing self.now others.now }
    {
        for seat in self.seats.as_slice() {
            if !is_among(seat, others) {
                return Some(*seat);
            }
        }
        None
    }
}

// Refuses seats of which one isn't of the site, or stands twice.
fn check_seats(seats: &[Seat], panels: u8) -> Result<(), BadOrder>
    requires { IsPanelCount panels }
    ensures ok { OnOk result (IsSound panels seats.now) }
    ensures bad { IfErr result (λ fault. order_fault panels seats.now ≡ Some fault) }
{
    let mut left = SeatSet::of_site();
    for (before, seat) in seats.iter().enumerate() {
        if seat.panel > panels || !left.remove(seat) {
            return Err(bad_seat(seat, panels, before + 1));
        }
    }
    Ok(())
}

// What is wrong with a seat that isn't of the site, or that stands at an earlier place.
#[cold]
fn bad_seat(seat: &Seat, panels: u8, place: usize) -> BadOrder
    requires { IsPanelCount panels }
    ensures { result
        ≡ if among seat.now (canonical_seats panels) then Repeated place else Strange place }
{
    if is_of_site(seat, panels) {
        BadOrder::Repeated { place }
    } else {
        BadOrder::Strange { place }
    }
}

// The first seat of the site that isn't among these, of which each is one of the site and none stands twice.
fn missing_seat(seats: &[Seat], panels: u8) -> Option<Seat>
    requires panels { IsPanelCount panels }
    requires sound { IsSound panels seats.now }
    ensures { result ≡ first_missing (canonical_seats panels) seats.now }
{
    // As many sound seats as the site has are all of them.
    if seats.len() == seat_count(panels) {
        return None;
    }
    sought_seat(seats, panels)
}

// How many seats a site of so many panels has.
fn seat_count(panels: u8) -> usize
    ensures { result ≡ 8 * panels + 1 }
{
    8 * panels as usize + 1
}

// The first seat of the canonical order that isn't among these. Room for that order is made here alone.
#[cold]
fn sought_seat(seats: &[Seat], panels: u8) -> Option<Seat>
    requires { IsPanelCount panels }
    ensures { result ≡ first_missing (canonical_seats panels) seats.now }
{
    Order::canonical(panels).first_missing(seats)
}

// Whether a seat is one of a site of so many panels.
fn is_of_site(seat: &Seat, panels: u8) -> bool
    ensures { result ≡ among seat.now (canonical_seats panels) }
{
    match seat.task {
        Task::Keep => seat.panel == 0,
        _ => 1 <= seat.panel && seat.panel <= panels,
    }
}

// Whether a seat is one of some seats.
fn is_among(seat: &Seat, seats: &[Seat]) -> bool
    ensures { result ≡ among seat.now seats.now }
{
    seats.contains(seat)
}

// Appends the eight seats of a panel.
fn push_panel(seats: &mut ArrayVec<Seat, 65>, panel: u8)
    requires { length seats.old.items + 8 ≤ 65 }
    ensures { seats.new.items ≡ seats.old.items ++ panel_seats panel }
{
    for task in Task::OF_PANEL {
        seats.push(Seat { panel, task });
    }
}
