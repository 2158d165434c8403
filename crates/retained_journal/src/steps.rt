//! The steps of a journal on its disk: one write with its sync each.

ghost use Rattle.std.specs.Prelude.{◌≡◌, ◌+◌, ◌<◌, ◌≤◌, ℕ, List, true, false, IsTrue, OnErr, OnOk, ◌↔◌};
ghost use Rattle.panel_edges.specs.Crashes.{LeavesOnly};
ghost use Rattle.panel_edges.specs.Faults.{HasCause};
ghost use Rattle.retained_journal.specs.Places.{most_cells};
ghost use Rattle.tick_units.specs.Ticks.{last_tick};

use crate::cell_bytes::{cell_bytes, make_changes};
use crate::journal::Journal;
use crate::layout::{CELL_BYTES, FRONT_BYTES, LOG_GATE, MOST_CELLS, cell_place, slot_place};
use crate::log_gate::LogGate;
use crate::slot_bytes::slot_bytes;
use panel_edges::{Disk, Failed, write_synced};

impl Journal {
    ghost use Rattle.std.specs.Prelude.{◌*◌, ◌^◌, IfSome};
    ghost use Rattle.panel_edges.specs.Disks.{Becomes};
    ghost use Rattle.site_types.specs.Changes.{changed_by};
    ghost use Rattle.retained_journal.specs.Batches.{IsBatch};
    ghost use Rattle.retained_journal.specs.Outcomes.{HasEndedMove, HasPreparedCells};
    ghost use Rattle.retained_journal.specs.Images.{HasRoomForTwo, HasZeros, HoldsBatch, HoldsCopy, KeepsAll};
    ghost use Rattle.retained_journal.specs.Images.{LeavesKept, MayCount, OpensToKeptOrAttempt, SameFront, Stands};
    ghost use Rattle.retained_journal.specs.Images.{StaysKept, StaysSo, other_of};
    ghost use Rattle.retained_journal.specs.Outcomes.{HasAppended, HasMoved};

    // Where the other slot begins.
    fn other_at(&self) -> u64
        ensures { result ≡ other_of self.now }
    {
        slot_place(!self.second) as u64
    }

    // Whether the log has a next cell, and its gate may be open.
    fn may_next_be_open(&self) -> bool
        ensures { IsTrue result ↔ ((self.now.cells < most_cells)
            × (self.now.cell_may_be_open ≡ true)) }
    {
        self.cells < MOST_CELLS && self.cell_may_be_open
    }

    // Shuts the gate of the other slot, where it may be open.
    pub(crate) fn shut_other<D: Disk>(&mut self, disk: &mut D) -> Result<(), Failed>
        requires { Stands D.honest D.images disk.old self.old }
        ensures stands { Stands D.honest D.images disk.new self.new }
        ensures ok { OnOk result (self.new ≡ record self.old { slot_may_be_open = false }) }
        ensures err { OnErr result (self.new ≡ self.old) }
        ensures moments { LeavesKept D.honest D.moment D.left_since disk.old disk.new self.old }
        ensures honest { D.honest disk.new ↔ D.honest disk.old }
        ensures cause { HasCause (D.faults disk.old) (D.faults disk.new) result }
    {
        if self.slot_may_be_open {
            write_synced(disk, self.other_at(), &[0])?;
            self.slot_may_be_open = false;
        }
        Ok(())
    }

    // Writes what is kept behind the gate of the other slot, which stands shut.
    pub(crate) fn write_slot<D: Disk>(&self, disk: &mut D) -> Result<(), Failed>
        requires stands { Stands D.honest D.images disk.old self.now }
        requires shut { self.now.slot_may_be_open ≡ false }
        requires full { self.now.cells ≡ most_cells }
        requires number { self.now.number + 1 < 2 ^ 64 }
        ensures stands { Stands D.honest D.images disk.new self.now }
        ensures ok { D.honest disk.old → OnOk result (
            (file : List ℕ) → D.images disk.new file → HoldsCopy self.now file) }
        ensures moments { LeavesKept D.honest D.moment D.left_since disk.old disk.new self.now }
        ensures honest { D.honest disk.new ↔ D.honest disk.old }
        ensures cause { HasCause (D.faults disk.old) (D.faults disk.new) result }
    {
        let slot = slot_bytes(self.number + 1, &self.kept);
        write_synced(disk, self.other_at() + 1, &slot[1..])
    }

    // Opens the gate of the other slot, behind which stands what is kept, and goes over to it. Cell 0 is the next one.
    pub(crate) fn open_slot<D: Disk>(&mut self, disk: &mut D) -> Result<(), Failed>
        requires stands { Stands D.honest D.images disk.old self.old }
        requires torn { self.old.torn ≡ true }
        requires moving { self.old.moving ≡ true }
        requires copy { D.honest disk.old →
            (file : List ℕ) → D.images disk.old file → HoldsCopy self.old file }
        requires number { self.old.number + 1 ≤ 2 ^ 63 + most_cells + 2 * self.old.tried }
        requires tried { self.old.tried ≤ last_tick + 1 }
        ensures stands { Stands D.honest D.images disk.new self.new }
        ensures ok { OnOk result (HasMoved self.old self.new) }
        ensures err { OnErr result (self.new ≡ record self.old { slot_may_be_open = true }) }
        ensures moments { LeavesKept D.honest D.moment D.left_since disk.old disk.new self.old }
        ensures honest { D.honest disk.new ↔ D.honest disk.old }
        ensures cause { HasCause (D.faults disk.old) (D.faults disk.new) result }
    {
        self.slot_may_be_open = true;
        write_synced(disk, self.other_at(), &[1])?;
        self.second = !self.second;
        self.number += 1;
        self.cells = 0;
        self.cell_may_be_open = true;
        self.moving = false;
        Ok(())
    }

    // Shuts the gate of the next cell, if there is one and its gate may be open.
    pub(crate) fn shut_next<D: Disk>(&mut self, disk: &mut D) -> Result<(), Failed>
        requires stands { Stands D.honest D.images disk.old self.old }
        requires log { MayCount self.old.log }
        ensures stands { Stands D.honest D.images disk.new self.new }
        ensures ok { OnOk result (self.new ≡ record self.old { cell_may_be_open = false }) }
        ensures err { OnErr result (self.new ≡ self.old) }
        ensures moments { LeavesKept D.honest D.moment D.left_since disk.old disk.new self.old }
        ensures honest { D.honest disk.new ↔ D.honest disk.old }
        ensures cause { HasCause (D.faults disk.old) (D.faults disk.new) result }
    {
        if self.may_next_be_open() {
            write_synced(disk, cell_place(self.cells), &[0])?;
        }
        self.cell_may_be_open = false;
        Ok(())
    }

    // Writes the batch last attempted behind the gate of the next cell, which stands shut.
    pub(crate) fn write_cell<D: Disk>(&self, disk: &mut D) -> Result<(), Failed>
        requires stands { Stands D.honest D.images disk.old self.now }
        requires log { MayCount self.now.log }
        requires free { self.now.cells < most_cells }
        requires shut { self.now.cell_may_be_open ≡ false }
        requires batch { IsBatch self.now.wide self.now.attempt.items }
        requires number { self.now.number + 1 < 2 ^ 64 }
        ensures stands { Stands D.honest D.images disk.new self.now }
        ensures ok { D.honest disk.old → OnOk result (
            (file : List ℕ) → D.images disk.new file → HoldsBatch self.now file) }
        ensures moments { LeavesKept D.honest D.moment D.left_since disk.old disk.new self.now }
        ensures front { Becomes SameFront (D.seen disk.old) (D.seen disk.new) }
        ensures honest { D.honest disk.new ↔ D.honest disk.old }
        ensures cause { HasCause (D.faults disk.old) (D.faults disk.new) result }
    {
        let cell = cell_bytes(self.number + 1, self.attempt.as_slice());
        write_synced(disk, cell_place(self.cells) + 1, &cell[1..])
    }

    // Opens the gate of the next cell, behind which stands the batch last attempted, and keeps the batch.
    pub(crate) fn open_cell<D: Disk>(&mut self, disk: &mut D) -> Result<(), Failed>
        requires stands { Stands D.honest D.images disk.old self.old }
        requires torn { self.old.torn ≡ true }
        requires log { self.old.log ≡ LogGate.Open }
        requires free { self.old.cells < most_cells }
        requires batch { IsBatch self.old.wide self.old.attempt.items }
        requires holds { D.honest disk.old →
            (file : List ℕ) → D.images disk.old file → HoldsBatch self.old file }
        requires number { self.old.number + 1 ≤ 2 ^ 63 + most_cells + 2 * self.old.tried }
        requires tried { self.old.tried ≤ last_tick + 1 }
        ensures stands { Stands D.honest D.images disk.new self.new }
        ensures ok { OnOk result (HasAppended self.old self.new) }
        ensures err { OnErr result (self.new ≡ record self.old { cell_may_be_open = true }) }
        ensures moments { LeavesKept D.honest D.moment D.left_since disk.old disk.new self.old }
        ensures front { Becomes SameFront (D.seen disk.old) (D.seen disk.new) }
        ensures honest { D.honest disk.new ↔ D.honest disk.old }
        ensures cause { HasCause (D.faults disk.old) (D.faults disk.new) result }
    {
        self.cell_may_be_open = true;
        write_synced(disk, cell_place(self.cells), &[1])?;
        make_changes(&mut self.kept, self.attempt.as_slice());
        self.number += 1;
        self.cells += 1;
        self.cell_may_be_open = false;
        Ok(())
    }

    // Opens the log gate, unless it is open already.
    pub(crate) fn open_log<D: Disk>(&mut self, disk: &mut D) -> Result<(), Failed>
        requires stands { Stands D.honest D.images disk.old self.old }
        requires log { MayCount self.old.log }
        ensures stands { Stands D.honest D.images disk.new self.new }
        ensures ok { OnOk result (self.new ≡ record self.old { log = LogGate.Open }) }
        ensures err { OnErr result (self.new ≡ self.old) }
        ensures moments { LeavesKept D.honest D.moment D.left_since disk.old disk.new self.old }
        ensures honest { D.honest disk.new ↔ D.honest disk.old }
        ensures cause { HasCause (D.faults disk.old) (D.faults disk.new) result }
    {
        match self.log {
            LogGate::Ready => {
                write_synced(disk, LOG_GATE as u64, &[1])?;
                self.log = LogGate::Open;
                Ok(())
            }
            LogGate::Shut => unreachable!(),
            LogGate::Open => Ok(()),
        }
    }

    // Writes zeros over all cells, while the log gate stands shut.
    fn write_zeros<D: Disk>(&self, disk: &mut D) -> Result<(), Failed>
        requires stands { Stands D.honest D.images disk.old self.now }
        requires shut { self.now.log ≡ LogGate.Shut }
        ensures stands { Stands D.honest D.images disk.new self.now }
        ensures ok { D.honest disk.new → OnOk result (
            IfSome (D.seen disk.new) (HasZeros most_cells)) }
        ensures moments { LeavesKept D.honest D.moment D.left_since disk.old disk.new self.now }
        ensures honest { D.honest disk.new ↔ D.honest disk.old }
        ensures cause { HasCause (D.faults disk.old) (D.faults disk.new) result }
    {
        for cell in 0..MOST_CELLS {
            disk.write_at(cell_place(cell), &[0; CELL_BYTES])?;
        }
        Ok(())
    }

    // Makes all cells zero, while the log gate stands shut, so that it may be opened.
    fn zero_cells<D: Disk>(&mut self, disk: &mut D) -> Result<(), Failed>
        requires stands { Stands D.honest D.images disk.old self.old }
        requires shut { self.old.log ≡ LogGate.Shut }
        ensures stands { Stands D.honest D.images disk.new self.new }
        ensures ok { OnOk result (
            self.new ≡ record self.old { log = LogGate.Ready; cell_may_be_open = false }) }
        ensures err { OnErr result (self.new ≡ self.old) }
        ensures moments { LeavesKept D.honest D.moment D.left_since disk.old disk.new self.old }
        ensures honest { D.honest disk.new ↔ D.honest disk.old }
        ensures cause { HasCause (D.faults disk.old) (D.faults disk.new) result }
    {
        self.write_zeros(disk)?;
        write_synced(disk, cell_place(MOST_CELLS), &[0])?;
        self.log = LogGate::Ready;
        self.cell_may_be_open = false;
        Ok(())
    }

    // Makes all cells zero, unless that was done or the log gate is open.
    pub(crate) fn prepare_cells<D: Disk>(&mut self, disk: &mut D) -> Result<(), Failed>
        requires { Stands D.honest D.images disk.old self.old }
        ensures stands { Stands D.honest D.images disk.new self.new }
        ensures ok { OnOk result (HasPreparedCells self.old self.new) }
        ensures err { OnErr result (self.new ≡ self.old) }
        ensures moments { LeavesKept D.honest D.moment D.left_since disk.old disk.new self.old }
        ensures honest { D.honest disk.new ↔ D.honest disk.old }
        ensures cause { HasCause (D.faults disk.old) (D.faults disk.new) result }
    {
        match self.log {
            LogGate::Shut => self.zero_cells(disk),
            LogGate::Ready => Ok(()),
            LogGate::Open => Ok(()),
        }
    }

    // Shuts the gate of the other slot where a move failed and it may be open.
    pub(crate) fn end_move<D: Disk>(&mut self, disk: &mut D) -> Result<(), Failed>
        requires { Stands D.honest D.images disk.old self.old }
        ensures stands { Stands D.honest D.images disk.new self.new }
        ensures ok { OnOk result (HasEndedMove self.old self.new) }
        ensures err { OnErr result (self.new ≡ self.old) }
        ensures moments { LeavesKept D.honest D.moment D.left_since disk.old disk.new self.old }
        ensures honest { D.honest disk.new ↔ D.honest disk.old }
        ensures cause { HasCause (D.faults disk.old) (D.faults disk.new) result }
    {
        if self.moving {
            self.shut_other(disk)?;
            self.moving = false;
        }
        Ok(())
    }

    // Takes the steps of mending: the cells, the log gate, a move that failed, the gate of the next cell.
    pub(crate) fn make_whole<D: Disk>(&mut self, disk: &mut D) -> Result<(), Failed>
        requires { Stands D.honest D.images disk.old self.old }
        ensures stands { Stands D.honest D.images disk.new self.new }
        ensures same { KeepsAll self.old self.new × (self.new.torn ≡ self.old.torn) }
        ensures ok { OnOk result ((self.new.log ≡ LogGate.Open)
            × (self.new.cell_may_be_open ≡ false) × (self.new.moving ≡ false)) }
        ensures moments { LeavesKept D.honest D.moment D.left_since disk.old disk.new self.old }
        ensures honest { D.honest disk.new ↔ D.honest disk.old }
        ensures cause { HasCause (D.faults disk.old) (D.faults disk.new) result }
    {
        self.prepare_cells(disk)?;
        self.open_log(disk)?;
        self.end_move(disk)?;
        self.shut_next(disk)
    }

    // Makes a cell free where none is: what is kept goes to the other slot.
    pub(crate) fn make_room<D: Disk>(&mut self, disk: &mut D) -> Result<(), Failed>
        requires stands { Stands D.honest D.images disk.old self.old }
        requires torn { self.old.torn ≡ true }
        requires log { self.old.log ≡ LogGate.Open }
        requires shut { self.old.cell_may_be_open ≡ false }
        requires still { self.old.moving ≡ false }
        requires number { self.old.number + 1 ≤ 2 ^ 63 + most_cells + 2 * self.old.tried }
        requires tried { self.old.tried ≤ last_tick + 1 }
        ensures stands { Stands D.honest D.images disk.new self.new }
        ensures same { StaysKept self.old self.new × (self.new.number ≤ self.old.number + 1) }
        ensures ok { OnOk result ((self.new.log ≡ LogGate.Open)
            × (self.new.cell_may_be_open ≡ false) × (self.new.cells < most_cells)
            × (self.new.moving ≡ false)) }
        ensures moments { D.honest disk.old → HasRoomForTwo self.old →
            LeavesOnly D.moment D.left_since disk.old disk.new (OpensToKeptOrAttempt self.old) }
        ensures unwritten { self.old.cells < most_cells →
            (D.seen disk.new ≡ D.seen disk.old) × (self.new ≡ self.old) }
        ensures honest { D.honest disk.new ↔ D.honest disk.old }
        ensures cause { HasCause (D.faults disk.old) (D.faults disk.new) result }
    {
        if self.cells < MOST_CELLS {
            return Ok(());
        }
        self.moving = true;
        self.shut_other(disk)?;
        self.write_slot(disk)?;
        self.open_slot(disk)?;
        self.shut_next(disk)
    }

    // Keeps the batch last attempted in the next cell.
    pub(crate) fn append<D: Disk>(&mut self, disk: &mut D) -> Result<(), Failed>
        requires stands { Stands D.honest D.images disk.old self.old }
        requires torn { self.old.torn ≡ true }
        requires log { self.old.log ≡ LogGate.Open }
        requires shut { self.old.cell_may_be_open ≡ false }
        requires still { self.old.moving ≡ false }
        requires batch { IsBatch self.old.wide self.old.attempt.items }
        requires number { self.old.number + 2 ≤ 2 ^ 63 + most_cells + 2 * self.old.tried }
        requires tried { self.old.tried ≤ last_tick + 1 }
        ensures stands { Stands D.honest D.images disk.new self.new }
        ensures same { StaysSo self.old self.new }
        ensures ok { OnOk result ((self.new.kept ≡ changed_by self.old.attempt.items self.old.kept)
            × (self.new.log ≡ LogGate.Open) × (self.new.cell_may_be_open ≡ false)
            × (self.new.moving ≡ false)) }
        ensures err { OnErr result (self.new.kept ≡ self.old.kept) }
        ensures moments { D.honest disk.old → HasRoomForTwo self.old →
            LeavesOnly D.moment D.left_since disk.old disk.new (OpensToKeptOrAttempt self.old) }
        ensures front { self.old.cells < most_cells →
            Becomes SameFront (D.seen disk.old) (D.seen disk.new) }
        ensures honest { D.honest disk.new ↔ D.honest disk.old }
        ensures cause { HasCause (D.faults disk.old) (D.faults disk.new) result }
    {
        self.make_room(disk)?;
        self.write_cell(disk)?;
        self.open_cell(disk)
    }
}
