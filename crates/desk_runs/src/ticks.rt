//! Running the tick of a block.

ghost use Rattle.std.specs.Prelude.{◌≡◌};
ghost use Rattle.desk_runs.specs.Running.{MayRunBlock, MayTellLines, MayTellStep, RunsBlock, TellsLines, TellsStep};
ghost use Rattle.desk_runs.specs.Ticks.{is_next as is_next_of, tick_expected};
ghost use Rattle.retained_journal.specs.Images.{Stands as StandsOn};
ghost use Rattle.site_run.specs.Disks.{KeepsOn};
ghost use Rattle.site_run.specs.Outside.{disks_of};

use desk_ticks::{behind_first_line, reader_behind_tick};
use panel_edges::Disk;
use record_lines::{Line, Step};
use site_run::Run;
use tick_units::{LAST_TICK, Tick};

/// Whether a tick is the one behind so many.
pub fn is_next(found: u64, ticks: u64) -> bool
    ensures { result ≡ is_next_of found ticks }
{
    ticks < LAST_TICK && found == ticks + 1
}

/// The tick that is expected behind so many, 0 behind the last.
pub fn expected(ticks: u64) -> u64
    ensures { result ≡ tick_expected ticks }
{
    if ticks < LAST_TICK { ticks + 1 } else { 0 }
}

/// Runs the next tick, whose block is accepted, and writes nothing.
pub fn run_block<D: Disk>(tick: u64, block: &[u8], run: &mut Run, disk: &mut D)
    requires may { MayRunBlock tick block.now run.old }
    requires stands { StandsOn D.honest D.images disk.old run.old.journal }
    ensures runs { RunsBlock tick block.now
        (disks_of D.honest D.images D.moment D.left_since disk.old disk.new)
        run.old run.new }
    ensures disk { KeepsOn D.honest D.images D.faults disk.old disk.new run.old run.new }
{
    run.begin(Tick(tick));
    tell_lines(behind_first_line(block), run);
    run.make_turns(disk);
}

// Tells the lines behind the first to the tick that has begun.
fn tell_lines(rest: &[u8], run: &mut Run)
    requires may { MayTellLines rest.now run.old }
    ensures tells { TellsLines rest.now run.old run.new }
    ensures journal { run.new.journal ≡ run.old.journal }
    ensures failures { run.new.store_failures ≡ run.old.store_failures }
{
    let mut reader = reader_behind_tick(run.site());
    let mut left = rest;
    while !left.is_empty() {
        let fed = reader.feed(run.site(), left);
        tell_step(fed.step, run);
        left = left.split_at(fed.used).1;
    }
}

// Tells an event or an order.
fn tell_step(step: Step, run: &mut Run)
    requires may { MayTellStep step run.old }
    ensures tells { TellsStep step run.old run.new }
    ensures journal { run.new.journal ≡ run.old.journal }
    ensures failures { run.new.store_failures ≡ run.old.store_failures }
{
    match step {
        Step::Line(Line::Event(event)) => run.tell(event),
        Step::Line(Line::Order(order)) => run.set_order(order),
        Step::Line(Line::Tick(_)) | Step::Line(Line::End) | Step::Refused(_) | Step::Need => {}
    }
}
