//! Entries that are kept in a journal one by one, and a cut within the last commit.

ghost use Rattle.std.specs.Prelude.{◌≡◌, ◌+◌, ◌≤◌, [], ◌∷◌};
ghost use Rattle.site_types.specs.declared.change.Change.TheVariants.{Count};
ghost use Rattle.retained_journal.specs.Images.{Stands};
ghost use Rattle.tick_units.specs.Ticks.{last_tick};

use crate::cutting::{Cut, first_loss, memory_disk};
use crate::opening::{DIGEST, opened, say_opened};
use anyhow::{Result, bail};
use panel_edges::Disk;
use retained_journal::{Batch, Journal};
use site_types::{Change, Retained};
use std::alloc::Global;
use trial_cases::{Lines, Words};

// One entry into the fire alarm condition at panel 1.
fn one_entry() -> Batch
    ensures { result.items ≡ Count 1 1 ∷ [] }
{
    let mut batch = Batch::new();
    batch.push(Change::Count {
        panel: 1,
        entries: 1,
    });
    batch
}

/// Commits so many entries, one by one, and says how many were kept.
pub(crate) fn count_entries<D: Disk>(journal: &mut Journal, disk: &mut D, times: u32) -> u32
    requires stands { Stands D.honest D.images disk.old journal.old }
    requires few { journal.old.tried + times ≤ last_tick }
    ensures stands { Stands D.honest D.images disk.new journal.new }
    ensures tried { journal.new.tried ≤ journal.old.tried + times }
{
    let mut kept = 0u32;
    for _time in 0..times {
        if journal.commit(disk, &one_entry()).is_ok() {
            kept = kept.wrapping_add(1);
        }
    }
    kept
}

/// What the journal tells of so many commits. The word is their number, at least 2.
pub(crate) fn cut_last(alloc: Global, mut words: Words) -> Result<String> {
    let count = words.byte()? as u32;
    if count < 2 {
        bail!("at least two commits are tried");
    }
    let mut disk = memory_disk(alloc, Vec::new(alloc), 1_000, 100_000, Vec::new(alloc))?;
    let Ok((mut journal, kept)) = Journal::open(&mut disk, DIGEST, true) else {
        bail!("a new journal isn't opened");
    };
    let mut lines = Lines::new(alloc);
    say_new(&mut lines, &kept, journal.torn());
    let earlier = count_entries(&mut journal, &mut disk, count - 2);
    say_kept(&mut lines, earlier, &journal, 0);
    let calls = disk.calls;
    let next = count_entries(&mut journal, &mut disk, 1);
    say_kept(&mut lines, next, &journal, disk.calls.wrapping_sub(calls));
    let since = disk.log.len();
    let last = count_entries(&mut journal, &mut disk, 1);
    say_kept(&mut lines, last, &journal, 0);
    let loss = first_loss(alloc, &disk, since, [count - 1, count])?;
    say_cuts(&mut lines, loss, count);
    say_opened(&mut lines, &opened(alloc, disk.bytes)?);
    lines.say("\n");
    lines.done()
}

fn say_new(lines: &mut Lines, kept: &Retained, is_torn: bool) {
    lines.say("    opened new: ");
    lines.say(if *kept == Retained::empty() {
        "nothing"
    } else {
        "something"
    });
    lines.say(" kept");
    say_torn(lines, is_torn);
    lines.say("\n");
}

fn say_torn(lines: &mut Lines, is_torn: bool) {
    lines.say(if is_torn { ", torn" } else { ", whole" });
}

// How many commits were kept, how the journal then stands, and how many calls of the disk they took, 0 for untold.
fn say_kept(lines: &mut Lines, commits: u32, journal: &Journal, calls: u64) {
    lines.count("    kept ", commits as u64);
    if calls != 0 {
        lines.count(" in calls ", calls);
    }
    lines.count(": cells ", journal.cells() as u64);
    lines.count(", counter ", journal.kept().counters[0] as u64);
    say_torn(lines, journal.torn());
    lines.say("\n");
}

fn say_cuts(lines: &mut Lines, loss: Option<Cut>, count: u32) {
    match loss {
        None => lines.count("    each cut: counter ", count.saturating_sub(1) as u64),
        Some(cut) => say_loss(lines, cut),
    }
    lines.count(" or ", count as u64);
    lines.say("\n");
}

/// Says which cut leaves a journal that doesn't open as it must.
pub(crate) fn say_loss(lines: &mut Lines, cut: Cut) {
    lines.count("    otherwise where a cut after ", cut.calls as u64);
    lines.count(" calls leaves ", cut.left as u64);
    lines.say(" bytes of each write: not counter");
}
