//! Reading a record, tick by tick.

ghost use Rattle.std.specs.Prelude.{◌≡◌, ◌≢◌, ◌<◌, ◌≤◌, ◌↔◌, [], IfOk, IfSome, OnErr, Ok, length, take};
ghost use Rattle.panel_parts.specs.Stands.{HasPlan};
ghost use Rattle.panel_edges.specs.Contents.{Consumes};
ghost use Rattle.panel_edges.specs.Faults.{HasCause, Rose};
ghost use Rattle.site_run.specs.Disks.{KeepsOn};
ghost use Rattle.panel_program.specs.Endings.{last_line as last_text, status_of as status_of_end};
ghost use Rattle.site_run.specs.Journals.{IsOpenFor};
ghost use Rattle.site_run.specs.Outside.{disks_of};
ghost use Rattle.site_run.specs.PowerCuts.{disk_after, disk_of};
ghost use Rattle.serving_ends.specs.Ends.{BlamesStores};
ghost use Rattle.panel_program.specs.Runs.{HasReadRecord, RanFrom, RanOver, streams_of};
ghost use Rattle.site_commands.specs.Sites.{IsLoaded};
ghost use Rattle.panel_program.specs.Taking.{HasTakenLine, HasTakenNext, HasTakenPiece, HasTakenStep};
ghost use Rattle.panel_program.specs.Taking.{MayPiece, MayStepSome, MayTake};
ghost use Rattle.site_run.specs.Stands.{StandsAtBeginning};
ghost use Rattle.program_status.specs.Statuses.{BlamesDisk, BlamesReads, BlamesWrites, IsSilentWithoutMemory};
ghost use Rattle.program_status.specs.Statuses.{number_of};
ghost use Rattle.program_status.specs.Sayings.{Says};
ghost use Rattle.panel_program.specs.declared.run_end.RunEnd.TheVariants.{ReadFault as ReadFaultEnd};
ghost use Rattle.retained_journal.specs.Images.{Stands as StandsOn};
ghost use Rattle.site_types.specs.Valid.{IsValid};

use crate::last_lines::last_line;
use crate::run_end::{RunEnd, status_of};
use crate::taken::Taken;
use cause_effect::Plan;
use journal_refusals::stop_at_journal;
use panel_edges::{Disk, Failed, MOST_RECORD_BYTES, Sink, Source};
use program_status::{Outcome, Status, say};
use record_lines::{Line, LineReader, Step};
use retained_journal::Journal;
use site_commands::Loaded;
use site_run::Run;
use site_types::Site;
use std::alloc::Global;

/// Bytes that are read at a time.
const PIECE_BYTES: usize = 4_096;

/// Runs a site over a record with the journal on a disk, and writes its text.
pub fn run_site<S: Source, K: Sink, D: Disk>(
    alloc: Global,
    loaded: Loaded,
    input: &mut S,
    out: &mut K,
    disk: &mut D,
) -> Outcome
    requires { IsLoaded loaded }
    ensures ran { RanOver loaded.site loaded.digest
        (disk_of D.seen D.honest D.images D.moment D.left_since disk.old disk.new)
        (streams_of S.left S.read_faults K.written input.old input.new out.old out.new) result }
    ensures read { BlamesReads result (S.read_faults input.old) (S.read_faults input.new) }
    ensures write { BlamesWrites result (K.write_faults out.old) (K.write_faults out.new) }
    ensures memory { IsSilentWithoutMemory result (K.written out.old) (K.written out.new) }
    ensures disk { BlamesDisk result (D.faults disk.old) (D.faults disk.new) }
    ensures stores { BlamesStores result (D.faults disk.old) (D.faults disk.new) }
{
    let Loaded { site, plan, digest } = loaded;
    match Journal::open(disk, digest, site.format == 2) {
        Ok((journal, _)) => run_with(alloc, site, plan, journal, input, out, disk),
        Err(refusal) => stop_at_journal(&refusal, out),
    }
}

// Runs a site with the journal that was opened for it.
fn run_with<S: Source, K: Sink, D: Disk>(
    alloc: Global,
    site: Site,
    plan: Plan,
    journal: Journal,
    input: &mut S,
    out: &mut K,
    disk: &mut D,
) -> Outcome
    requires valid { IsValid site }
    requires plan { HasPlan site plan }
    requires journal { IsOpenFor site journal.kept journal }
    requires stands { StandsOn D.honest D.images disk.old journal }
    ensures ran { RanFrom site journal
        (disk_after D.seen D.honest D.images D.moment D.left_since disk.new)
        (streams_of S.left S.read_faults K.written input.old input.new out.old out.new) result }
    ensures read { BlamesReads result (S.read_faults input.old) (S.read_faults input.new) }
    ensures write { BlamesWrites result (K.write_faults out.old) (K.write_faults out.new) }
    ensures memory { IsSilentWithoutMemory result (K.written out.old) (K.written out.new) }
    ensures disk { result.status ≢ number_of Status.DiskFault }
    ensures stores { BlamesStores result (D.faults disk.old) (D.faults disk.new) }
{
    let Ok(mut run) = Run::open(alloc, site, plan, journal) else {
        return Outcome::after(Status::NoMemory, 0);
    };
    let Ok(()) = run.write_opening(out) else {
        return Outcome::after(Status::WriteFault, 0);
    };
    match read_record(&mut run, input, out, disk) {
        Ok(end) => finish(end, &run, out),
        Err(Failed) => run_outcome(Outcome::after(Status::WriteFault, run.ticks()), &run),
    }
}

// An outcome of a run, with the ticks in which Keep's turn failed.
fn run_outcome(outcome: Outcome, run: &Run) -> Outcome
    ensures { result ≡ record outcome { store_failures = run.now.store_failures } }
{
    Outcome {
        store_failures: run.store_failures(),
        ..outcome
    }
}

// Reads a record to its end.
fn read_record<S: Source, K: Sink, D: Disk>(
    run: &mut Run,
    input: &mut S,
    out: &mut K,
    disk: &mut D,
) -> Result<RunEnd, Failed>
    requires begins { StandsAtBeginning run.old }
    requires stands { StandsOn D.honest D.images disk.old run.old.journal }
    ensures reads { HasReadRecord
        (disks_of D.honest D.images D.moment D.left_since disk.old disk.new) (streams_of S.left
        S.read_faults K.written input.old input.new out.old out.new) run.old run.new result }
    ensures read { result ≡ Ok ReadFaultEnd
        → Rose (S.read_faults input.old) (S.read_faults input.new) }
    ensures disk { KeepsOn D.honest D.images D.faults disk.old disk.new run.old run.new }
    ensures cause { HasCause (K.write_faults out.old) (K.write_faults out.new) result }
{
    let mut reader = LineReader::new();
    let mut buffer = [0; PIECE_BYTES];
    let mut read = 0;
    while read < MOST_RECORD_BYTES {
        let most = (PIECE_BYTES as u64).min(MOST_RECORD_BYTES - read) as usize;
        let Ok(count) = read_piece(input, &mut buffer, most) else {
            return Ok(RunEnd::ReadFault);
        };
        if count == 0 {
            return Ok(RunEnd::Refused(reader.finish()));
        }
        match take_piece(run, &mut reader, &buffer[..count], out, disk)? {
            Some(end) => return Ok(end),
            None => read += count as u64,
        }
    }
    Ok(RunEnd::TooManyBytes)
}

// Reads at most so many bytes into the front of a buffer.
fn read_piece<S: Source>(input: &mut S, buffer: &mut [u8], most: usize) -> Result<usize, Failed>
    requires { (0 < most) × (most ≤ length buffer.old) }
    ensures bound { IfOk result (λ n. n ≤ most) }
    ensures size { length buffer.new ≡ length buffer.old }
    ensures count { IfOk result (λ n. length (take n buffer.new) ≡ n) }
    ensures bytes { IfOk result
        (λ n. Consumes (S.left input.old) (S.left input.new) (take n buffer.new)) }
    ensures ends { IfOk result (λ n. IfSome (S.left input.old) (λ bytes. (n ≡ 0) ↔ (bytes ≡ []))) }
    ensures err { OnErr result (S.left input.new ≡ S.left input.old) }
    ensures cause { HasCause (S.read_faults input.old) (S.read_faults input.new) result }
{
    input.read(&mut buffer[..most])
}

// Takes a piece of a record.
fn take_piece<K: Sink, D: Disk>(
    run: &mut Run,
    reader: &mut LineReader,
    piece: &[u8],
    out: &mut K,
    disk: &mut D,
) -> Result<Option<RunEnd>, Failed>
    requires may { MayPiece piece.now reader.old run.old }
    requires stands { StandsOn D.honest D.images disk.old run.old.journal }
    ensures takes { HasTakenPiece piece.now
        (disks_of D.honest D.images D.moment D.left_since disk.old disk.new) (K.written out.old)
        (K.written out.new) reader.old run.old reader.new run.new result }
    ensures disk { KeepsOn D.honest D.images D.faults disk.old disk.new run.old run.new }
    ensures cause { HasCause (K.write_faults out.old) (K.write_faults out.new) result }
{
    let mut rest = piece;
    while !rest.is_empty() {
        let taken = take_next(run, reader, rest, out, disk)?;
        match taken.end {
            Some(end) => return Ok(Some(end)),
            None => rest = rest.split_at(taken.used).1,
        }
    }
    Ok(None)
}

// Takes the next line of a piece, or the whole of it where no line ends in it.
fn take_next<K: Sink, D: Disk>(
    run: &mut Run,
    reader: &mut LineReader,
    piece: &[u8],
    out: &mut K,
    disk: &mut D,
) -> Result<Taken, Failed>
    requires may { MayPiece piece.now reader.old run.old }
    requires some { 0 < length piece.now }
    requires stands { StandsOn D.honest D.images disk.old run.old.journal }
    ensures takes { HasTakenNext piece.now
        (disks_of D.honest D.images D.moment D.left_since disk.old disk.new) (K.written out.old)
        (K.written out.new) reader.old run.old reader.new run.new result }
    ensures used { IfOk result (λ taken. (0 < taken.used) × (taken.used ≤ length piece.now)) }
    ensures disk { KeepsOn D.honest D.images D.faults disk.old disk.new run.old run.new }
    ensures cause { HasCause (K.write_faults out.old) (K.write_faults out.new) result }
{
    let fed = reader.feed(run.site(), piece);
    let used = fed.used;
    let end = take_step(run, fed.step, out, disk)?;
    Ok(Taken { used, end })
}

// Takes what a reader answered.
fn take_step<K: Sink, D: Disk>(
    run: &mut Run,
    step: Step,
    out: &mut K,
    disk: &mut D,
) -> Result<Option<RunEnd>, Failed>
    requires may { MayStepSome step run.old }
    requires stands { StandsOn D.honest D.images disk.old run.old.journal }
    ensures takes { HasTakenStep step
        (disks_of D.honest D.images D.moment D.left_since disk.old disk.new)
        (K.written out.old) (K.written out.new) run.old run.new result }
    ensures disk { KeepsOn D.honest D.images D.faults disk.old disk.new run.old run.new }
    ensures cause { HasCause (K.write_faults out.old) (K.write_faults out.new) result }
{
    match step {
        Step::Need => Ok(None),
        Step::Line(line) => take_line(run, line, disk, out),
        Step::Refused(refusal) => Ok(Some(RunEnd::Refused(refusal))),
    }
}

// Takes a line of the record. The turns of a tick are made when the line behind its block comes, and what changed in it
// is written then.
fn take_line<D: Disk, K: Sink>(
    run: &mut Run,
    line: Line,
    disk: &mut D,
    out: &mut K,
) -> Result<Option<RunEnd>, Failed>
    requires may { MayTake line run.old }
    requires stands { StandsOn D.honest D.images disk.old run.old.journal }
    ensures takes { HasTakenLine line
        (disks_of D.honest D.images D.moment D.left_since disk.old disk.new)
        (K.written out.old) (K.written out.new) run.old run.new result }
    ensures disk { KeepsOn D.honest D.images D.faults disk.old disk.new run.old run.new }
    ensures cause { HasCause (K.write_faults out.old) (K.write_faults out.new) result }
{
    match line {
        Line::Tick(tick) => {
            run.close(disk, out)?;
            run.begin(tick);
            Ok(None)
        }
        Line::Event(event) => {
            run.tell(event);
            Ok(None)
        }
        Line::Order(order) => {
            run.set_order(order);
            Ok(None)
        }
        Line::End => {
            run.close(disk, out)?;
            Ok(Some(RunEnd::Ended))
        }
    }
}

// Writes the last line of a run.
fn finish<K: Sink>(end: RunEnd, run: &Run, out: &mut K) -> Outcome
    ensures says { Says (status_of_end end) (last_text run.now.ticks end) (K.written out.old)
        (K.written out.new) result.status }
    ensures ticks { (result.ticks ≡ run.now.ticks)
        × (result.store_failures ≡ run.now.store_failures) }
    ensures write { BlamesWrites result (K.write_faults out.old) (K.write_faults out.new) }
    ensures later { K.write_faults out.old ≤ K.write_faults out.new }
{
    let line = last_line(end, run.ticks());
    run_outcome(
        say(line.as_str().as_bytes(), status_of(end), run.ticks(), out),
        run,
    )
}
