ghost use Rattle.std.specs.Prelude.{◌≡◌, ◌≢◌, ◌≤◌, ◌↔◌, [], ◌∷◌, reverse};
ghost use Rattle.tick_units.specs.Orders.{canonical_seats, panel_seats, panel_tasks, seat_of};
ghost use Rattle.retained_journal.specs.Images.{HasRoom, IsEarly, Stands};
ghost use Rattle.retained_journal.specs.Outcomes.{EachOpens};
ghost use Rattle.keep_turn.specs.Turns.{FailsByItsDisk, TriesAtMostOnce};

use crate::order_form::OrderForm;
use crate::system::System;
use cause_effect::Steps;
use keep_turn::Store;
use panel_edges::Disk;
use retained_journal::Journal;
use std::sync::ledger::Ledger;
use tick_units::{Order, Seat, Task};

impl System {
    ghost use Rattle.panel_core.specs.Changes.{MakesTurns, MakesTurnsFrom};
    ghost use Rattle.panel_core.specs.Keeping.{LeavesAfterTurns, LeavesInTurns, MakesAllTurns, MayTurnAll};
    ghost use Rattle.panel_core.specs.Marks.{MarksAllTurns, MarksTurns, MarksTurnsFrom};
    ghost use Rattle.panel_core.specs.OrderForms.{HasForm};
    ghost use Rattle.panel_core.specs.Stands.{MayTurnFrom, MayTurnSeat, MayTurnTasks};
    ghost use Rattle.panel_core.specs.StepCounts.{CountsAllTurns, CountsTurn, CountsTurns, CountsTurnsFrom};

    /// Each seat has its turn, in this order, with the journal that keeps what the run keeps. The answer is that of
    /// Keep's turn: after any but a failure each file that a power cut may leave opens to what is kept. The turns of an
    /// order whose form is told are made without a look at each seat.
    pub fn turns<L: Ledger, D: Disk>(
        &mut self,
        order: &Order,
        form: OrderForm,
        journal: &mut Journal,
        disk: &mut D,
        steps: &mut Steps<L>,
    ) -> Store
        requires may { MayTurnAll order.now journal.old self.old }
        requires form { HasForm form self.old.site.panels order.now }
        requires stands { Stands D.honest D.images disk.old journal.old }
        ensures turns { MakesAllTurns self.old order.now journal.old result journal.new self.new }
        // The steps are the markers that depend on what changed since each panel's turn of Effect before.
        ensures steps { CountsAllTurns self.old order.now journal.old result steps.old steps.new }
        // A panel that isn't marked after them shows what it showed at the end of the tick before.
        ensures marks { MarksAllTurns self.old order.now journal.old result self.new.changed }
        ensures stands { Stands D.honest D.images disk.new journal.new }
        ensures same { TriesAtMostOnce journal.old journal.new }
        ensures early { IsEarly journal.old → IsEarly journal.new }
        ensures opens { result ≢ Store.Failed → D.honest disk.new → HasRoom journal.new
            → EachOpens (D.images disk.new) journal.new }
        // A power cut leaves a front of the run: what is kept, or that with the batch of a turn of Keep that failed.
        ensures cut { D.honest disk.new → HasRoom journal.new
            → LeavesAfterTurns (D.images disk.new) order.now self.old journal.old result }
        ensures moments { D.honest disk.old
            → LeavesInTurns D.moment D.left_since disk.old disk.new order.now self.old journal.old }
        ensures honest { D.honest disk.new ↔ D.honest disk.old }
        ensures cause { FailsByItsDisk (D.faults disk.old) (D.faults disk.new) result }
    {
        let place = self.first_turns(order, form, steps);
        let store = self.keep(journal, disk);
        self.last_turns(order, place + 1, form, steps);
        store
    }

    // The seats before Keep's have their turns. Tells the place of Keep, which is the first of a reversed order.
    fn first_turns<L: Ledger>(
        &mut self,
        order: &Order,
        form: OrderForm,
        steps: &mut Steps<L>,
    ) -> usize
        requires may { MayTurnFrom order.now 0 self.old }
        requires form { HasForm form self.old.site.panels order.now }
        ensures turns { MakesTurnsFrom self.old order.now 0 result self.new }
        ensures steps { CountsTurnsFrom self.old order.now 0 result steps.old steps.new }
        ensures marks { MarksTurnsFrom self.old order.now 0 result self.new.changed }
        ensures few { result ≤ 65 }
    {
        match form {
            OrderForm::Canonical => self.canonical_turns(steps),
            OrderForm::Reversed | OrderForm::Any => self.turns_from(order, 0, steps),
        }
    }

    // The seats behind Keep's have their turns, which stands before this place. Tells the end.
    fn last_turns<L: Ledger>(
        &mut self,
        order: &Order,
        from: usize,
        form: OrderForm,
        steps: &mut Steps<L>,
    ) -> usize
        requires may { MayTurnFrom order.now from self.old }
        requires form { HasForm form self.old.site.panels order.now }
        ensures turns { MakesTurnsFrom self.old order.now from result self.new }
        ensures steps { CountsTurnsFrom self.old order.now from result steps.old steps.new }
        ensures marks { MarksTurnsFrom self.old order.now from result self.new.changed }
        ensures few { result ≤ 65 }
    {
        if let OrderForm::Reversed = form {
            if from == 1 {
                return self.reversed_turns(steps);
            }
        }
        self.turns_from(order, from, steps)
    }

    // Those of the canonical order, panel by panel. Tells the place of Keep, which is its last.
    fn canonical_turns<L: Ledger>(&mut self, steps: &mut Steps<L>) -> usize
        requires { MayTurnFrom (canonical_seats self.old.site.panels) 0 self.old }
        ensures turns { let order = canonical_seats self.old.site.panels in
            MakesTurnsFrom self.old order 0 result self.new }
        ensures steps { let order = canonical_seats self.old.site.panels in
            CountsTurnsFrom self.old order 0 result steps.old steps.new }
        ensures marks { let order = canonical_seats self.old.site.panels in
            MarksTurnsFrom self.old order 0 result self.new.changed }
        ensures few { result ≤ 65 }
    {
        let panels = self.site.panels;
        for before in 0..panels {
            self.turn_panel(before + 1, steps);
        }
        8 * panels as usize
    }

    // Those of the reversed order behind Keep's, from the last panel to the first. Tells the end.
    fn reversed_turns<L: Ledger>(&mut self, steps: &mut Steps<L>) -> usize
        requires { MayTurnFrom (reverse (canonical_seats self.old.site.panels)) 1 self.old }
        ensures turns { let order = reverse (canonical_seats self.old.site.panels) in
            MakesTurnsFrom self.old order 1 result self.new }
        ensures steps { let order = reverse (canonical_seats self.old.site.panels) in
            CountsTurnsFrom self.old order 1 result steps.old steps.new }
        ensures marks { let order = reverse (canonical_seats self.old.site.panels) in
            MarksTurnsFrom self.old order 1 result self.new.changed }
        ensures few { result ≤ 65 }
    {
        let panels = self.site.panels;
        for before in 0..panels {
            self.turn_panel_back(panels - before, steps);
        }
        8 * panels as usize + 1
    }

    // The tasks of a panel have their turns one after another. Each call names its task, so the match on it is gone
    // from what is compiled.
    fn turn_panel<L: Ledger>(&mut self, panel: u8, steps: &mut Steps<L>)
        requires { MayTurnTasks panel panel_tasks self.old }
        ensures turns { MakesTurns self.old (panel_seats panel) self.new }
        ensures steps { CountsTurns self.old (panel_seats panel) steps.old steps.new }
        ensures marks { MarksTurns self.old (panel_seats panel) self.new.changed }
    {
        self.turn_task(panel, Task::Poll, steps);
        self.turn_task(panel, Task::Decide, steps);
        self.turn_task(panel, Task::Supply, steps);
        self.turn_task(panel, Task::Desk, steps);
        self.turn_task(panel, Task::Hold, steps);
        self.turn_task(panel, Task::Link, steps);
        self.turn_task(panel, Task::Effect, steps);
        self.turn_task(panel, Task::Drive, steps);
    }

    // So they have, the last first.
    fn turn_panel_back<L: Ledger>(&mut self, panel: u8, steps: &mut Steps<L>)
        requires { MayTurnTasks panel (reverse panel_tasks) self.old }
        ensures turns { MakesTurns self.old (reverse (panel_seats panel)) self.new }
        ensures steps { CountsTurns self.old (reverse (panel_seats panel)) steps.old steps.new }
        ensures marks { MarksTurns self.old (reverse (panel_seats panel)) self.new.changed }
    {
        self.turn_task(panel, Task::Drive, steps);
        self.turn_task(panel, Task::Effect, steps);
        self.turn_task(panel, Task::Link, steps);
        self.turn_task(panel, Task::Hold, steps);
        self.turn_task(panel, Task::Desk, steps);
        self.turn_task(panel, Task::Supply, steps);
        self.turn_task(panel, Task::Decide, steps);
        self.turn_task(panel, Task::Poll, steps);
    }

    // The seats from a place on have their turns, up to that of Keep. Tells the place of Keep, or the end.
    fn turns_from<L: Ledger>(&mut self, order: &Order, from: usize, steps: &mut Steps<L>) -> usize
        requires { MayTurnFrom order.now from self.old }
        ensures turns { MakesTurnsFrom self.old order.now from result self.new }
        ensures steps { CountsTurnsFrom self.old order.now from result steps.old steps.new }
        ensures marks { MarksTurnsFrom self.old order.now from result self.new.changed }
        ensures few { result ≤ 65 }
    {
        for place in from..order.len() {
            let seat = order.seat(place);
            if let Task::Keep = seat.task {
                return place;
            }
            self.turn_of(seat, steps);
        }
        order.len()
    }

    // One task of a panel has its turn.
    #[inline(always)]
    fn turn_task<L: Ledger>(&mut self, panel: u8, task: Task, steps: &mut Steps<L>)
        requires { MayTurnSeat (seat_of panel task) self.old }
        ensures turns { MakesTurns self.old (seat_of panel task ∷ []) self.new }
        ensures steps { CountsTurn self.old panel task steps.old steps.new }
        ensures marks { MarksTurns self.old (seat_of panel task ∷ []) self.new.changed }
    {
        self.turn_of(Seat { panel, task }, steps);
    }

    // One seat of a panel has its turn.
    #[inline(always)]
    fn turn_of<L: Ledger>(&mut self, seat: Seat, steps: &mut Steps<L>)
        requires { MayTurnSeat seat self.old }
        ensures turns { MakesTurns self.old (seat ∷ []) self.new }
        ensures steps { CountsTurn self.old seat.panel seat.task steps.old steps.new }
        ensures marks { MarksTurns self.old (seat ∷ []) self.new.changed }
    {
        let panel = seat.panel;
        match seat.task {
            Task::Poll => self.poll_turn(panel),
            Task::Decide => self.decide_turn(panel),
            Task::Supply => self.supply_turn(panel),
            Task::Desk => self.desk.turn(&self.site, &self.settings, panel),
            Task::Hold => self.marked_hold_turn(panel),
            Task::Link => self.marked_link_turn(panel),
            Task::Effect => self.effect_turn(panel, steps),
            Task::Drive => self.marked_drive_turn(panel),
            Task::Keep => {}
        }
    }
}
