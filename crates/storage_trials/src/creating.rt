//! A journal that is made with a state.

ghost use Rattle.std.specs.Prelude.{◌≤◌, true};
ghost use Rattle.site_types.specs.Changes.{AreCounters};
ghost use Rattle.retained_journal.specs.Slots.{FitPoints, HasNarrowPoints};

use crate::opening::DIGEST;
use anyhow::{Result, bail};
use panel_edges::SoundMemoryDisk;
use retained_journal::{CreateRefusal, Journal};
use site_types::Retained;
use std::alloc::Global;
use trial_cases::{Lines, Words};

/// Whether a journal is made with these counters, what is kept once it is opened, and whether another one is made in
/// the same file.
pub(crate) fn create(alloc: Global, words: Words) -> Result<String> {
    let state = state_of(words);
    let Ok(mut disk) = SoundMemoryDisk::new(alloc, Vec::new(alloc)) else {
        bail!("no memory");
    };
    let mut lines = Lines::new(alloc);
    say_created(&mut lines, Journal::create(&mut disk, DIGEST, true, &state));
    let Ok((journal, kept)) = Journal::open(&mut disk, DIGEST, true) else {
        bail!("the journal isn't opened");
    };
    say_state(&mut lines, "opened with", &kept);
    say_state(&mut lines, "the journal keeps", journal.kept());
    say_created(&mut lines, Journal::create(&mut disk, DIGEST, true, &state));
    lines.done()
}

// A state with these counters and nothing else.
fn state_of(words: Words) -> Retained
    ensures counters { AreCounters result.counters }
    ensures points { FitPoints result.points }
    ensures narrow { HasNarrowPoints true result.points }
{
    Retained {
        counters: counters_of(words),
        ..Retained::empty()
    }
}

fn counters_of(mut words: Words) -> [u32; 8]
    ensures { AreCounters result }
{
    [
        next_counter(&mut words),
        next_counter(&mut words),
        next_counter(&mut words),
        next_counter(&mut words),
        next_counter(&mut words),
        next_counter(&mut words),
        next_counter(&mut words),
        next_counter(&mut words),
    ]
}

// The next counter, 0 where there is none; at most the greatest one.
fn next_counter(words: &mut Words) -> u32
    ensures { result ≤ 999_999 }
{
    words.next().parse::<u32>().unwrap_or(0).min(999_999)
}

fn say_created(lines: &mut Lines, answer: Result<(), CreateRefusal>) {
    match answer {
        Ok(()) => lines.say("    created"),
        Err(CreateRefusal::NotEmpty { length }) => {
            lines.count("    not created: bytes there already ", length);
        }
        Err(CreateRefusal::DiskFault) => lines.say("    a fault of the disk"),
    }
    lines.say("\n");
}

fn say_state(lines: &mut Lines, words: &str, state: &Retained) {
    lines.say("    ");
    lines.say(words);
    lines.say(" counters");
    for counter in state.counters {
        lines.count(" ", counter as u64);
    }
    let counters = Retained {
        counters: state.counters,
        ..Retained::empty()
    };
    lines.say(if *state == counters {
        ", nothing else\n"
    } else {
        ", something else\n"
    });
}
