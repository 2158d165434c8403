use crate::begins::begins_of;
use crate::line_status::LineStatus;
use site_types::{LoopPlan, PieceState};

/// Each number of a piece or a place has an entry, so that none is out of range.
const NUMBERS: usize = 256;

/// The cable of a loop: what its pieces are at, and what that makes of its addresses.
#[derive(Drop)]
pub struct LoopLine {
    last: u8,
    /// For each piece the place at which its section begins.
    begins: [u8; NUMBERS],
    pieces: [PieceState; NUMBERS],
    /// For each place whether the section that begins there holds a short.
    shorted: [bool; NUMBERS],
    /// How many pieces from end A on can be passed.
    ahead: usize,
    /// The piece from which on all can be passed up to end B.
    behind: usize,
    status: LineStatus,
}

impl LoopLine {
    ghost use Rattle.std.specs.Prelude.{◌≡◌, ◌+◌, ◌≤◌, ◌<◌, ℕ};
    ghost use Rattle.site_types.specs.declared.loop_plan.LoopPlan.{LoopPlan as LoopPlanOf};
    ghost use Rattle.isolators.specs.Reach.{Cable, is_passed, is_reached, sound_cable, status_of, with_piece};
    ghost use Rattle.isolators.specs.Stands.{Cables, HoldShorts, PassAhead, PassBehind, StandsFor};

    /// The loop of this plan, all pieces sound.
    pub fn new(plan: &LoopPlan) -> LoopLine
        ensures { StandsFor plan.now sound_cable result }
    {
        let mut line = LoopLine {
            last: plan.last,
            begins: begins_of(plan.isolators.as_slice()),
            pieces: [PieceState::Sound; NUMBERS],
            shorted: [false; NUMBERS],
            ahead: 0,
            behind: 0,
            status: LineStatus {
                broken: false,
                shorted: false,
            },
        };
        line.look();
        line
    }

    /// Takes a report on a piece of the cable, 0 to the last address of the loop.
    pub fn set_piece(&mut self, piece: u8, state: PieceState)
        ensures { (plan : LoopPlanOf) (cable : Cable) → StandsFor plan cable self.old
            → StandsFor plan (with_piece cable piece state) self.new }
    {
        self.pieces[piece as usize] = state;
        self.look();
    }

    /// Whether an address, from 1 to the last of the loop, is reached.
    pub fn reach(&self, address: u8) -> bool
        requires { 1 ≤ address }
        ensures { (plan : LoopPlanOf) (cable : Cable) → StandsFor plan cable self.now
            → address ≤ plan.last → result ≡ is_reached plan cable address }
    {
        let begins = self.begins[address as usize - 1];
        let reached_from_a = address as usize <= self.ahead;
        let reached_from_b = self.behind <= address as usize;
        !self.shorted[begins as usize] && (reached_from_a || reached_from_b)
    }

    /// What is wrong with the cable.
    pub fn status(&self) -> LineStatus
        ensures { (plan : LoopPlanOf) (cable : Cable) → StandsFor plan cable self.now
            → result ≡ status_of plan cable }
    {
        self.status
    }

    // Draws from the pieces what they make of the loop.
    fn look(&mut self)
        ensures { (plan : LoopPlanOf) (cable : Cable) → Cables plan cable self.old
            → StandsFor plan cable self.new }
    {
        self.shorted = self.shorted_sections();
        self.ahead = self.pieces_ahead();
        self.behind = self.pieces_behind();
        self.status = self.faults();
    }

    fn count(&self) -> usize
        ensures value { (plan : LoopPlanOf) (cable : Cable) → Cables plan cable self.now
            → result ≡ plan.last + 1 }
        ensures bound { result ≤ 256 }
    {
        self.last as usize + 1
    }

    fn shorted_sections(&self) -> [bool; NUMBERS]
        ensures { (plan : LoopPlanOf) (cable : Cable) → Cables plan cable self.now
            → HoldShorts plan cable result }
    {
        let mut shorted = [false; NUMBERS];
        for piece in 0..self.count() {
            if matches!(self.pieces[piece], PieceState::Short) {
                shorted[self.begins[piece] as usize] = true;
            }
        }
        shorted
    }

    fn can_pass(&self, piece: usize) -> bool
        requires { piece < 256 }
        ensures { (plan : LoopPlanOf) (cable : Cable) → Cables plan cable self.now
            → HoldShorts plan cable self.now.shorted → result ≡ is_passed plan cable piece }
    {
        !matches!(self.pieces[piece], PieceState::Open)
            && !self.shorted[self.begins[piece] as usize]
    }

    fn pieces_ahead(&self) -> usize
        ensures { (plan : LoopPlanOf) (cable : Cable) → Cables plan cable self.now
            → HoldShorts plan cable self.now.shorted → PassAhead plan cable result }
    {
        for piece in 0..self.count() {
            if !self.can_pass(piece) {
                return piece;
            }
        }
        self.count()
    }

    fn pieces_behind(&self) -> usize
        ensures { (plan : LoopPlanOf) (cable : Cable) → Cables plan cable self.now
            → HoldShorts plan cable self.now.shorted → PassBehind plan cable result }
    {
        for piece in (0..self.count()).rev() {
            if !self.can_pass(piece) {
                return piece + 1;
            }
        }
        0
    }

    fn faults(&self) -> LineStatus
        ensures { (plan : LoopPlanOf) (cable : Cable) → Cables plan cable self.now
            → result ≡ status_of plan cable }
    {
        let mut broken = false;
        let mut shorted = false;
        for piece in 0..self.count() {
            match self.pieces[piece] {
                PieceState::Sound => {}
                PieceState::Open => broken = true,
                PieceState::Short => shorted = true,
            }
        }
        LineStatus { broken, shorted }
    }
}
