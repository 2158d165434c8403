ghost use Rattle.std.specs.Prelude.{◌≡◌, ◌≢◌, ◌+◌, ◌<◌, ◌≤◌, ◌^◌, ℕ, Ok, Err, None, Some, true, false, ◌==◌, length};
ghost use Rattle.std.specs.Prelude.{slice_index, IfErr, IfOk, IfSome, OnOk, ◌↔◌};
ghost use Rattle.panel_edges.specs.Crashes.{Stays};
ghost use Rattle.panel_edges.specs.Faults.{HasCause};
ghost use Rattle.site_types.specs.Changes.{changed_by};
ghost use Rattle.retained_journal.specs.declared.open_refusal.OpenRefusal.TheVariants.{Damaged};
ghost use Rattle.retained_journal.specs.Cells.{cell_changes, is_next as counts_next};
ghost use Rattle.retained_journal.specs.Fields.{Agrees};
ghost use Rattle.retained_journal.specs.Places.{bytes_of_cell, cell_place as place_of_cell, most_cells};
ghost use Rattle.retained_journal.specs.Places.{whole_bytes};
ghost use Rattle.retained_journal.specs.Outcomes.{LeavesAsItWas};
ghost use Rattle.retained_journal.specs.Slots.{IsKeepable};
ghost use Rattle.retained_journal.specs.Replays.{EndsReplay, HasRefusalCause, RefusesReplay, TakesCell};

use crate::changes::{apply_changes, wrong_in_cell};
use crate::fields::number_at;
use crate::layout::{CELL_BYTES, MOST_CELLS, cell_place};
use crate::open_refusal::OpenRefusal;
use panel_edges::{Disk, Failed};
use site_types::Retained;

/// What the chosen slot and the cells that count behind it make together.
#[derive(Clone, Copy)]
pub(crate) struct Replay {
    pub wide: bool,
    /// The state of the slot with the changes of the cells.
    pub kept: Retained,
    /// The number of the last of these cells, or of the slot where there is none.
    pub number: u64,
    /// How many cells count.
    pub cells: u8,
    /// Whether the gate of the next cell is open.
    pub is_next_open: bool,
}

impl Replay {
    /// Reads the cells that count behind the slot.
    pub fn read_cells<D: Disk>(&mut self, disk: &mut D) -> Result<(), OpenRefusal>
        requires told { IfSome (D.seen disk.old) (λ file. whole_bytes ≤ length file) }
        requires begun { (self.old.cells ≡ 0) × (self.old.is_next_open ≡ false) }
        requires number { self.old.number ≤ 2 ^ 63 }
        requires keeps { IsKeepable self.old.wide self.old.kept }
        ensures ok { OnOk result (
            IfSome (D.seen disk.old) (λ file. EndsReplay file self.old self.new)) }
        ensures err { IfErr result (λ e. e ≢ OpenRefusal.DiskFault →
            IfSome (D.seen disk.old) (λ file. RefusesReplay file self.old e)) }
        ensures bound { OnOk result ((self.new.wide ≡ self.old.wide)
            × (self.new.number ≡ self.old.number + self.new.cells)
            × (self.new.cells ≤ most_cells)) }
        ensures keeps { OnOk result (IsKeepable self.new.wide self.new.kept) }
        ensures seen { D.seen disk.new ≡ D.seen disk.old }
        ensures honest { D.honest disk.new ↔ D.honest disk.old }
        ensures crash { D.honest disk.old → Stays (D.images disk.old) (D.images disk.new) }
        ensures moments { LeavesAsItWas D.honest D.moment D.left_since D.images disk.old disk.new }
        ensures cause { HasRefusalCause (D.faults disk.old) (D.faults disk.new) result }
    {
        for cell in 0..MOST_CELLS {
            let bytes = read_cell(disk, cell)?;
            if !self.take(&bytes)? {
                return Ok(());
            }
        }
        Ok(())
    }

    // Makes the changes of the next cell where it counts, and says whether it does.
    fn take(&mut self, cell: &[u8; CELL_BYTES]) -> Result<bool, OpenRefusal>
        requires cells { self.old.cells < most_cells }
        requires number { self.old.number ≤ 2 ^ 63 + most_cells }
        ensures { TakesCell self.old cell.now result self.new }
    {
        if !is_next(self.number + 1, cell) {
            self.is_next_open = cell[0] == 1;
            return Ok(false);
        }
        if let Some(place) = wrong_in_cell(self.wide, cell) {
            return Err(OpenRefusal::Damaged {
                offset: cell_place(self.cells) + place as u64,
                byte: cell[place],
            });
        }
        apply_changes(&mut self.kept, self.wide, cell);
        self.number += 1;
        self.cells += 1;
        Ok(true)
    }
}

// Whether a cell counts after those before it.
fn is_next(number: u64, cell: &[u8; CELL_BYTES]) -> bool
    ensures { result ≡ counts_next number 0 cell.now }
{
    cell[0] == 1 && number_at(cell, 1) == number
}

// Reads a cell.
fn read_cell<D: Disk>(disk: &mut D, cell: u8) -> Result<[u8; CELL_BYTES], Failed>
    requires told { IfSome (D.seen disk.old) (λ file. whole_bytes ≤ length file) }
    requires cell { cell < most_cells }
    ensures ok { IfOk result (λ bytes.
        IfSome (D.seen disk.old) (λ file. Agrees bytes_of_cell bytes 0 file (place_of_cell cell))) }
    ensures seen { D.seen disk.new ≡ D.seen disk.old }
    ensures honest { D.honest disk.new ↔ D.honest disk.old }
    ensures crash { D.honest disk.old → Stays (D.images disk.old) (D.images disk.new) }
    ensures moments { LeavesAsItWas D.honest D.moment D.left_since D.images disk.old disk.new }
    ensures cause { HasCause (D.faults disk.old) (D.faults disk.new) result }
{
    let mut bytes = [0; CELL_BYTES];
    disk.read_at(cell_place(cell), &mut bytes)?;
    Ok(bytes)
}
