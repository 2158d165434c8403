ghost use Rattle.std.specs.Prelude.{◌≡◌, ◌≤◌, ℕ, List, [], ◌∷◌, ◌++◌};
ghost use Rattle.tick_units.specs.SeatSets.{HasAllBut, is_left_over};
ghost use Rattle.tick_units.specs.declared.seat.Seat.{Seat as SeatOf};

use crate::seat::Seat;

// The tasks of a panel.
const OF_PANEL: u16 = 0xff;

// The task of panel 0, which is Keep.
const OF_KEEP: u16 = 0x100;

/// A set of seats of at most 8 panels: for each panel, a bit for each task.
#[derive(Drop)]
pub struct SeatSet {
    tasks: [u16; 9],
}

impl SeatSet {
    /// All seats of a site, however many panels it has.
    pub fn of_site() -> SeatSet
        ensures { (panels : ℕ) → panels ≤ 8 → HasAllBut panels [] result }
    {
        let mut tasks = [OF_PANEL; 9];
        tasks[0] = OF_KEEP;
        SeatSet { tasks }
    }

    /// Takes a seat out of the set, and answers whether it was there.
    pub fn remove(&mut self, seat: &Seat) -> bool
        requires { seat.now.panel ≤ 8 }
        ensures removed { (panels : ℕ) (seats : List SeatOf) → HasAllBut panels seats self.old
            → HasAllBut panels (seats ++ seat.now ∷ []) self.new }
        ensures was_there { (panels : ℕ) (seats : List SeatOf) → HasAllBut panels seats self.old
            → seat.now.panel ≤ panels
            → result ≡ is_left_over panels seats seat.now }
    {
        let panel = seat.panel as usize;
        let task = seat.task as u32;
        let tasks = self.tasks[panel];
        self.tasks[panel] = tasks & !(1 << task);
        tasks >> task & 1 == 1
    }
}
