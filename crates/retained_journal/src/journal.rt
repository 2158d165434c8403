ghost use Rattle.std.specs.Prelude.{◌≡◌, ◌≢◌, ◌⊎◌, ◌+◌, ◌<◌, ◌≤◌, ◌^◌, None, Some, ℕ, List, length, not, IfErr, IfOk};
ghost use Rattle.std.specs.Prelude.{IfSome, OnErr, OnOk, ◌↔◌, false, true, if◌then◌else◌};
ghost use Rattle.panel_edges.specs.Crashes.{LeavesOnly, Stays};
ghost use Rattle.panel_edges.specs.Faults.{HasCause};
ghost use Rattle.panel_edges.specs.Disks.{Becomes};
ghost use Rattle.site_types.specs.Changes.{AreCounters, changed_by, nothing_retained};
ghost use Rattle.retained_journal.specs.Batches.{IsBatch};
ghost use Rattle.retained_journal.specs.Creating.{HasCreateCause};
ghost use Rattle.retained_journal.specs.Fields.{Agrees, first_in};
ghost use Rattle.retained_journal.specs.Images.{HasRoom, HasRoomForTwo, IsEarly, IsSound, KeepsAll, MayLeave};
ghost use Rattle.retained_journal.specs.Images.{MayLeaveOr, SameFront, Stands};
ghost use Rattle.retained_journal.specs.Journals.{IsFresh, IsLong, IsNewJournal, IsOpenedOn, IsOfFront, IsReadFrom};
ghost use Rattle.retained_journal.specs.Journals.{IsReplayOf};
ghost use Rattle.retained_journal.specs.NewFiles.{BecomesNew};
ghost use Rattle.retained_journal.specs.Opening.{Opens, change_out_of_form, counted, great_counter};
ghost use Rattle.retained_journal.specs.Opening.{is_second as second_counts, opened, refusal_of};
ghost use Rattle.retained_journal.specs.Outcomes.{CountsItsCells, CountsUnlessTorn, EachMayBeLeft, EachOpens};
ghost use Rattle.retained_journal.specs.Outcomes.{HasFailed, HasKept, HasTried, IsEarlyFor, IsKeptIn, IsLengthOf};
ghost use Rattle.retained_journal.specs.Outcomes.{IsRefusalOf, LeavesAsItWas, LeavesEachInTurn, SparesFull};
ghost use Rattle.retained_journal.specs.Outcomes.{UnlessEmpty};
ghost use Rattle.retained_journal.specs.Places.{bytes_of_slot, front_bytes, most_cells};
ghost use Rattle.retained_journal.specs.Places.{slot_place as place_of_slot};
ghost use Rattle.retained_journal.specs.Replays.{BeginsReplay, HasRefusalCause};
ghost use Rattle.retained_journal.specs.Slots.{FitPoints, HasNarrowPoints, IsKeepable, slot_number};
ghost use Rattle.tick_units.specs.Ticks.{last_tick};

use crate::batch::Batch;
use crate::create_refusal::CreateRefusal;
use crate::disk_fault::DiskFault;
use crate::fields::number_at;
use crate::front::{Front, check_front, is_second, read_front};
use crate::layout::{LOG_GATE, slot_place};
use crate::log_gate::LogGate;
use crate::new_file::write_new;
use crate::open_refusal::OpenRefusal;
use crate::replay::Replay;
use crate::slots::retained_at;
use panel_edges::Disk;
use site_types::Retained;

/// A journal that is open.
#[derive(Drop)]
pub struct Journal {
    pub(crate) wide: bool,
    pub(crate) digest: [u8; 32],
    /// What is kept.
    pub(crate) kept: Retained,
    /// The batch that was last attempted.
    pub(crate) attempt: Batch,
    /// Whether the next call mends first.
    pub(crate) torn: bool,
    /// How many commits were tried.
    pub(crate) tried: u64,
    /// The last number that a slot or a cell was given.
    pub(crate) number: u64,
    /// Whether the chosen slot is slot B.
    pub(crate) second: bool,
    /// How many cells count.
    pub(crate) cells: u8,
    pub(crate) log: LogGate,
    /// Whether the gate of the other slot may be open.
    pub(crate) slot_may_be_open: bool,
    /// Whether the gate of the next cell may be open.
    pub(crate) cell_may_be_open: bool,
    /// Whether a move to the other slot was begun and not ended.
    pub(crate) moving: bool,
}

impl Journal {
    /// Opens the journal of a site by the digest of its site file, and gives what it keeps. A file of no bytes
    /// becomes a new journal; nothing is written to any other.
    ///
    /// # Errors
    ///
    /// The file is refused by the first cause in the order of [`OpenRefusal`], or the disk failed.
    pub fn open<D: Disk>(
        disk: &mut D,
        digest: [u8; 32],
        wide: bool,
    ) -> Result<(Journal, Retained), OpenRefusal>
        ensures kept { IfOk result (λ r. r.0.kept ≡ r.1) }
        ensures ok { IfOk result (λ r. IfSome (D.seen disk.old) (IsKeptIn wide digest r.1)) }
        ensures err { IfErr result (IsRefusalOf wide digest (D.seen disk.old)) }
        ensures stands { IfOk result (λ r. Stands D.honest D.images disk.new r.0) }
        ensures opens { D.honest disk.new → IfOk result (λ r. EachOpens (D.images disk.new) r.0) }
        ensures cells { IfOk result (λ r. IfSome (D.seen disk.new) (CountsUnlessTorn r.0)) }
        // The journal is that of the file as it then stands: that of an empty one, too, of which a new file was made.
        ensures read { IfOk result (λ r.
            Becomes (IsOpenedOn wide digest r.0) (D.seen disk.old) (D.seen disk.new)) }
        ensures early { IfOk result (λ r. IfSome (D.seen disk.old) (IsEarlyFor r.0)) }
        ensures fresh { IfOk result (λ r. IsFresh wide digest r.0) }
        ensures unwritten { UnlessEmpty (D.seen disk.old) (D.seen disk.new ≡ D.seen disk.old) }
        ensures untouched { SparesFull D.honest D.seen D.moment D.left_since D.images
            disk.old disk.new }
        ensures honest { D.honest disk.new ↔ D.honest disk.old }
        ensures cause { HasRefusalCause (D.faults disk.old) (D.faults disk.new) result }
    {
        disk.sync()?;
        let len = disk.len()?;
        if len == 0 {
            let kept = Retained::empty();
            write_new(disk, &digest, &kept)?;
            return Ok((Journal::of_new(digest, wide), kept));
        }
        let journal = read_journal(disk, len, digest, wide)?;
        let kept = journal.kept;
        Ok((journal, kept))
    }

    /// Makes the journal of a site, by the digest of its site file, in an empty file, with the state that it is to
    /// keep.
    ///
    /// # Errors
    ///
    /// The file isn't empty, or the disk failed. Nothing is written to a file that isn't empty; an empty one may be
    /// written in part where the disk failed.
    pub fn create<D: Disk>(
        disk: &mut D,
        digest: [u8; 32],
        wide: bool,
        state: &Retained,
    ) -> Result<(), CreateRefusal>
        requires counters { AreCounters state.now.counters }
        requires points { FitPoints state.now.points }
        requires narrow { HasNarrowPoints wide state.now.points }
        ensures ok { D.honest disk.old → OnOk result ((file : List ℕ) → D.images disk.new file →
            opened wide digest file ≡ Opens state.now) }
        ensures made { OnOk result (
            Becomes (BecomesNew digest state.now) (D.seen disk.old) (D.seen disk.new)) }
        ensures err { IfErr result (IsLengthOf (D.seen disk.old)) }
        ensures unwritten { IfErr result (λ e. e ≢ CreateRefusal.DiskFault →
            D.seen disk.new ≡ D.seen disk.old) }
        ensures seen { UnlessEmpty (D.seen disk.old) (D.seen disk.new ≡ D.seen disk.old) }
        ensures untouched { SparesFull D.honest D.seen D.moment D.left_since D.images
            disk.old disk.new }
        ensures honest { D.honest disk.new ↔ D.honest disk.old }
        ensures cause { HasCreateCause (D.faults disk.old) (D.faults disk.new) result }
    {
        disk.sync()?;
        let length = disk.len()?;
        if length != 0 {
            return Err(CreateRefusal::NotEmpty { length });
        }
        write_new(disk, &digest, state)?;
        Ok(())
    }

    /// What is kept.
    pub fn kept(&self) -> &Retained
        ensures { result.now ≡ self.now.kept }
    {
        &self.kept
    }

    /// Mends the journal where an earlier call left it torn.
    ///
    /// # Errors
    ///
    /// A call of the disk failed. The journal is torn yet, and keeps what it kept.
    pub fn mend<D: Disk>(&mut self, disk: &mut D) -> Result<(), DiskFault>
        requires { Stands D.honest D.images disk.old self.old }
        ensures stands { Stands D.honest D.images disk.new self.new }
        ensures same { KeepsAll self.old self.new }
        ensures early { IsEarly self.old → IsEarly self.new }
        ensures ok { OnOk result (self.new.torn ≡ false) }
        ensures err { OnErr result ((self.old.torn ≡ true) × (self.new.torn ≡ true)) }
        // After Ok each file that a crash may leave opens to what is kept, and all cells that count are known.
        ensures opens { D.honest disk.new → HasRoom self.new →
            OnOk result (EachOpens (D.images disk.new) self.new) }
        ensures cells { D.honest disk.new →
            OnOk result (IfSome (D.seen disk.new) (CountsItsCells self.new)) }
        ensures images { D.honest disk.new → HasRoom self.new →
            EachMayBeLeft (D.images disk.new) self.new }
        ensures moments { D.honest disk.old → HasRoom self.old →
            LeavesOnly D.moment D.left_since disk.old disk.new (MayLeave self.old) }
        ensures unwritten { self.old.torn ≡ false → D.seen disk.new ≡ D.seen disk.old }
        ensures honest { D.honest disk.new ↔ D.honest disk.old }
        ensures cause { HasCause (D.faults disk.old) (D.faults disk.new) result }
    {
        if self.torn {
            self.make_whole(disk)?;
            self.torn = false;
        }
        Ok(())
    }

    /// Keeps a batch of 1 to 72 changes.
    ///
    /// # Errors
    ///
    /// A call of the disk failed. The journal is torn and keeps what it kept; a crash may leave the batch, until the
    /// journal is mended.
    pub fn commit<D: Disk>(&mut self, disk: &mut D, batch: &Batch) -> Result<(), DiskFault>
        requires stands { Stands D.honest D.images disk.old self.old }
        requires batch { IsBatch self.old.wide batch.now.items }
        requires few { self.old.tried ≤ last_tick }
        ensures stands { Stands D.honest D.images disk.new self.new }
        ensures ok { OnOk result (HasKept batch.now.items self.old self.new) }
        ensures err { OnErr result (HasFailed batch.now.items self.old self.new) }
        ensures early { IsEarly self.old → IsEarly self.new }
        ensures same { HasTried self.old self.new }
        ensures opens { D.honest disk.new → HasRoom self.new →
            OnOk result (EachOpens (D.images disk.new) self.new) }
        ensures cells { D.honest disk.new →
            OnOk result (IfSome (D.seen disk.new) (CountsItsCells self.new)) }
        ensures images { D.honest disk.new → HasRoom self.new →
            EachMayBeLeft (D.images disk.new) self.new }
        ensures moments { D.honest disk.old → HasRoomForTwo self.old →
            LeavesOnly D.moment D.left_since disk.old disk.new
            (MayLeaveOr self.old batch.now.items) }
        // The earlier batch may be left until the mending has ended, and this one only from then on: the mending
        // failed, or the call had both parts.
        ensures in_turn { D.honest disk.old → HasRoomForTwo self.old →
            LeavesEachInTurn D.moment D.left_since disk.old disk.new
            self.old batch.now.items self.new }
        ensures front { self.old.torn ≡ false → self.old.cells < most_cells →
            Becomes SameFront (D.seen disk.old) (D.seen disk.new) }
        ensures honest { D.honest disk.new ↔ D.honest disk.old }
        ensures cause { HasCause (D.faults disk.old) (D.faults disk.new) result }
    {
        self.tried += 1;
        self.mend(disk)?;
        self.begin(batch);
        self.append(disk)?;
        self.torn = false;
        Ok(())
    }

    // The batch is the one last attempted from now on.
    fn begin(&mut self, batch: &Batch)
        ensures { (self.new ≡ record self.old { torn = true; attempt = self.new.attempt })
            × (self.new.attempt.items ≡ batch.now.items) }
    {
        let mut attempt = Batch::new();
        match attempt.try_extend_from_slice(batch.as_slice()) {
            Ok(()) => {}
            Err(_) => unreachable!(),
        }
        self.torn = true;
        self.attempt = attempt;
    }

    /// Whether the next call mends first.
    pub fn torn(&self) -> bool
        ensures { result ≡ self.now.torn }
    {
        self.torn
    }

    /// How many cells count.
    pub fn cells(&self) -> u8
        ensures { result ≡ self.now.cells }
    {
        self.cells
    }

    // The journal of a new file.
    fn of_new(digest: [u8; 32], wide: bool) -> Journal
        ensures { IsNewJournal wide digest result }
    {
        Journal {
            wide,
            digest,
            kept: Retained::empty(),
            attempt: Batch::new(),
            torn: true,
            tried: 0,
            number: 1,
            second: false,
            cells: 0,
            log: LogGate::Shut,
            slot_may_be_open: false,
            cell_may_be_open: false,
            moving: false,
        }
    }

    // The journal of a front whose chosen slot and counted cells were read.
    fn of_front(
        front: &Front,
        digest: [u8; 32],
        wide: bool,
        second: bool,
        replay: &Replay,
    ) -> Journal
        ensures { IsOfFront wide digest front.now second replay.now result }
    {
        let is_log_open = front[LOG_GATE] == 1;
        Journal {
            wide,
            digest,
            kept: replay.kept,
            attempt: Batch::new(),
            torn: !is_log_open || replay.is_next_open,
            tried: 0,
            number: replay.number,
            second,
            cells: replay.cells,
            log: log_gate(is_log_open),
            slot_may_be_open: front[slot_place(!second)] == 1,
            cell_may_be_open: replay.is_next_open,
            moving: false,
        }
    }
}

fn log_gate(is_open: bool) -> LogGate
    ensures { result ≡ (if is_open then LogGate.Open else LogGate.Shut) }
{
    if is_open {
        LogGate::Open
    } else {
        LogGate::Shut
    }
}

// Reads the journal in a file of so many bytes.
fn read_journal<D: Disk>(
    disk: &mut D,
    len: u64,
    digest: [u8; 32],
    wide: bool,
) -> Result<Journal, OpenRefusal>
    requires { IfSome (D.seen disk.old) (λ file. len ≡ length file) }
    ensures sound { IfOk result IsSound }
    ensures fresh { IfOk result (IsFresh wide digest) }
    ensures ok { IfOk result (λ journal. IfSome (D.seen disk.old) (λ file.
        (refusal_of wide digest file ≡ None) × IsReadFrom wide digest file journal)) }
    ensures err { IfErr result (λ e. e ≢ OpenRefusal.DiskFault →
        IfSome (D.seen disk.old) (λ file. refusal_of wide digest file ≡ Some e)) }
    ensures seen { D.seen disk.new ≡ D.seen disk.old }
    ensures honest { D.honest disk.new ↔ D.honest disk.old }
    ensures crash { D.honest disk.old → Stays (D.images disk.old) (D.images disk.new) }
    ensures moments { LeavesAsItWas D.honest D.moment D.left_since D.images disk.old disk.new }
    ensures cause { HasRefusalCause (D.faults disk.old) (D.faults disk.new) result }
{
    let front = read_front(disk, len)?;
    check_front(&front, len, &digest)?;
    let second = is_second(&front);
    let replay = read_counted(disk, &front, wide, second)?;
    Ok(Journal::of_front(&front, digest, wide, second, &replay))
}

// Reads the chosen slot of a front that isn't refused, and the cells that count behind it.
fn read_counted<D: Disk>(
    disk: &mut D,
    front: &Front,
    wide: bool,
    second: bool,
) -> Result<Replay, OpenRefusal>
    requires second { second ≡ second_counts front.now }
    requires number { slot_number (place_of_slot second) front.now ≤ 2 ^ 63 }
    requires counters { first_in (great_counter (place_of_slot second) front.now) 8 ≡ None }
    requires told { IfSome (D.seen disk.old) (λ file.
        Agrees front_bytes front.now 0 file 0 × IsLong front.now file) }
    ensures keeps { IfOk result (λ replay.
        IsKeepable wide replay.kept × (replay.cells ≤ most_cells)
        × (replay.number ≤ 2 ^ 63 + most_cells)) }
    ensures ok { IfOk result (λ replay. IfSome (D.seen disk.old) (λ file.
        (change_out_of_form wide file ≡ None) × IsReplayOf wide file replay)) }
    ensures err { IfErr result (λ e. e ≢ OpenRefusal.DiskFault →
        IfSome (D.seen disk.old) (λ file. change_out_of_form wide file ≡ Some e)) }
    ensures seen { D.seen disk.new ≡ D.seen disk.old }
    ensures honest { D.honest disk.new ↔ D.honest disk.old }
    ensures crash { D.honest disk.old → Stays (D.images disk.old) (D.images disk.new) }
    ensures moments { LeavesAsItWas D.honest D.moment D.left_since D.images disk.old disk.new }
    ensures cause { HasRefusalCause (D.faults disk.old) (D.faults disk.new) result }
{
    let mut replay = begin_replay(front, wide, slot_place(second));
    if front[LOG_GATE] == 1 {
        replay.read_cells(disk)?;
    }
    Ok(replay)
}

// The state of a slot, before any cell.
fn begin_replay(front: &Front, wide: bool, at: usize) -> Replay
    requires { at + bytes_of_slot ≤ front_bytes }
    ensures { BeginsReplay wide at front.now result }
{
    Replay {
        wide,
        kept: retained_at(wide, at, front),
        number: number_at(front, at + 1),
        cells: 0,
        is_next_open: false,
    }
}
