//! Commits in a new journal while a call of the disk fails.

ghost use Rattle.std.specs.Prelude.{◌+◌, ◌≤◌};
ghost use Rattle.panel_edges.specs.MemoryDisks.{images_of};
ghost use Rattle.retained_journal.specs.Images.{Stands};
ghost use Rattle.tick_units.specs.Ticks.{last_tick};

use crate::committing::count_entries;
use crate::cutting::{Cut, first_loss, memory_disk};
use crate::opening::DIGEST;
use anyhow::Result;
use panel_edges::MemoryDisk;
use retained_journal::Journal;
use std::alloc::Global;
use trial_cases::{Lines, Words};

/// What came of the commits of a journal.
#[derive(Clone, Copy)]
enum Outcome {
    /// The journal wasn't opened.
    Refused,
    /// So many entries were kept, and each cut left what was kept before a commit or after it.
    Kept(u32),
    /// Such a cut left something else.
    Lost(Cut),
    /// The journal wasn't mended, or then kept something else.
    NotMended,
}

/// What came of so many commits of one entry each and a mending behind them, for each of the first calls of the disk
/// failing alone. The words are how many calls and how many commits.
pub(crate) fn fail_each(alloc: Global, mut words: Words) -> Result<String> {
    let calls = words.byte()? as u64;
    let commits = words.byte()?;
    let mut lines = Lines::new(alloc);
    let mut sound = 0u64;
    for failing in 1..=calls {
        match try_failing(alloc, failing, commits)? {
            Outcome::Kept(_) => sound = sound.saturating_add(1),
            other => say_failing(&mut lines, failing, other),
        }
    }
    lines.count("    nothing lost where any other fails: ", sound);
    lines.say("\n");
    lines.done()
}

fn say_failing(lines: &mut Lines, failing: u64, outcome: Outcome) {
    lines.count("    call ", failing);
    match outcome {
        Outcome::Refused => lines.say(": no journal is opened"),
        Outcome::Kept(counter) => lines.count(": counter ", counter as u64),
        Outcome::Lost(cut) => {
            lines.count(": something lost by a cut after ", cut.calls as u64);
            lines.count(" calls, bytes left ", cut.left as u64);
        }
        Outcome::NotMended => lines.say(": not mended"),
    }
    lines.say("\n");
}

fn try_failing(alloc: Global, failing: u64, commits: u8) -> Result<Outcome> {
    let fails = vec![in alloc; failing]?;
    let mut disk = memory_disk(alloc, Vec::new(alloc), 400, 100_000, fails)?;
    let Ok((mut journal, _)) = Journal::open(&mut disk, DIGEST, true) else {
        return Ok(Outcome::Refused);
    };
    match commit_each(alloc, &mut journal, &mut disk, commits)? {
        Outcome::Kept(counter) => mend(alloc, &mut journal, &mut disk, counter),
        other => Ok(other),
    }
}

// Commits so many entries, and tries each cut within each commit.
fn commit_each(
    alloc: Global,
    journal: &mut Journal,
    disk: &mut MemoryDisk,
    commits: u8,
) -> Result<Outcome>
    requires stands { Stands (λ (disk : MemoryDisk). Unit {0}) images_of disk.old journal.old }
    requires few { journal.old.tried + commits ≤ last_tick }
    ensures { Stands (λ (disk : MemoryDisk). Unit {0}) images_of disk.new journal.new }
{
    let mut kept = 0u32;
    for _commit in 0..commits {
        let since = disk.log.len();
        let after = kept.wrapping_add(count_entries(journal, disk, 1));
        if let Some(cut) = first_loss(alloc, disk, since, [kept, kept.wrapping_add(1)])? {
            return Ok(Outcome::Lost(cut));
        }
        kept = after;
    }
    Ok(Outcome::Kept(kept))
}

// Mends the journal, and tries what it then keeps.
fn mend(
    alloc: Global,
    journal: &mut Journal,
    disk: &mut MemoryDisk,
    counter: u32,
) -> Result<Outcome>
    requires { Stands (λ (disk : MemoryDisk). Unit {0}) images_of disk.old journal.old }
{
    let is_mended = journal.mend(disk).is_ok();
    if !is_mended || journal.torn() || journal.kept().counters[0] != counter {
        return Ok(Outcome::NotMended);
    }
    match first_loss(alloc, disk, disk.log.len(), [counter, counter])? {
        None => Ok(Outcome::Kept(counter)),
        Some(cut) => Ok(Outcome::Lost(cut)),
    }
}
