//! Records with operations, each compared with what the plain program makes of it.

use anyhow::{Result, bail};
use compared_runs::{Told, by_rules, by_system, first_other};
use site_types::Site;
use std::alloc::Global;
use std::fs;
use trial_cases::{Case, Lines, Words, site_at};
use trial_records::blocks_of;

/// How a record is played.
#[derive(Drop)]
struct Play {
    /// Whether a tick whose order isn't given has the reversed one.
    reversed: bool,
    /// The calls of the disk that fail, by number.
    fails: Vec<u64>,
}

impl Play {
    /// The play that words such as `reversed, fails 12 13` spell.
    fn read(alloc: Global, words: &str) -> Result<Play> {
        let mut play = Play {
            reversed: false,
            fails: Vec::new(alloc),
        };
        for part in words.split(", ") {
            let mut words = Words::of(part);
            match words.next() {
                "" => {}
                "reversed" => play.reversed = true,
                "fails" => {
                    for number in words.rest().split(' ') {
                        play.fails.push(number.parse::<u64>()?)?;
                    }
                }
                word => bail!("no way to play a record: {word}"),
            }
        }
        Ok(play)
    }
}

/// What the system tells of a record, and whether the plain program tells the same.
pub(crate) fn say_operations(rt: &HostRuntime, case: &Case) -> Result<String> {
    let alloc = rt.alloc();
    let mut words = Words::of(case.subject);
    let name = words.next();
    let site = site_at(rt, name)?;
    let blocks = blocks_of(alloc, &site, &fs::read_to_string(rt, words.next())?)?;
    let play = Play::read(alloc, case.rest)?;
    let played = by_system(
        alloc,
        site_at(rt, name)?,
        &blocks,
        play.reversed,
        play.fails,
    )?;
    let plain = by_rules(alloc, &site, &played.moments)?;
    let mut lines = Lines::new(alloc);
    say_all(alloc, &mut lines, &site, &played.told)?;
    match first_other(&played.told, &plain) {
        None => lines.say("    as by the plain program\n"),
        Some(_) => {
            lines.say("    otherwise by the plain program:\n");
            say_all(alloc, &mut lines, &site, &plain)?;
        }
    }
    lines.done()
}

/// The ticks in which something is told.
pub(crate) fn say_all(alloc: Global, lines: &mut Lines, site: &Site, told: &[Told]) -> Result<()> {
    let mut before: Option<&Told> = None;
    let mut tick: u64 = 1;
    for now in told {
        let words = now.words(alloc, site, before)?;
        if !words.is_empty() {
            lines.tick(tick, &words);
        }
        before = Some(now);
        tick = tick.saturating_add(1);
    }
    Ok(())
}
