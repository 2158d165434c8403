//! A panel with a point at each address of four loops: which of them answer in a tick.

ghost use Rattle.std.specs.Prelude.{◌≤◌};

use crate::polling::{answers_at, poller_of};
use answer_lanes::blocks_of_panel;
use anyhow::{Result, bail};
use site_config::read_site;
use site_types::Site;
use std::alloc::Global;
use trial_cases::Lines;

/// In each tick of two rounds those points answer of whose address less 1 the eighth part is the tick within
/// its round, in order of loop, then address. Where the site lists the points in that order, each tick's are a block.
pub(crate) fn ask_full_loops(alloc: Global, last: &str) -> Result<String> {
    match last {
        "96" => ask_rounds(alloc, 1, 96, 12, false),
        "192" => ask_rounds(alloc, 2, 192, 24, false),
        "96 rising" => ask_rounds(alloc, 1, 96, 12, true),
        "192 rising" => ask_rounds(alloc, 2, 192, 24, true),
        _ => bail!("a loop ends at 96 or at 192"),
    }
}

fn ask_rounds(alloc: Global, format: u8, last: u8, round: u64, rising: bool) -> Result<String>
    requires { (1 ≤ round) × (round ≤ 24) }
{
    let text = full_site(alloc, format, last, rising)?;
    let Ok(site) = read_site(alloc, text.as_bytes()) else {
        bail!("a refused site");
    };
    let poller = poller_of(alloc, &site)?;
    let mut lines = Lines::new(alloc);
    for tick in 1..=2 * round {
        let answers = answers_at(alloc, &site, &poller, tick)?;
        let wanted = wanted_at(alloc, last, tick % round)?;
        if answers.as_str() != wanted.as_str() {
            lines.tick(tick, &answers);
        }
    }
    if lines.is_empty() {
        lines.count("    each address once in a round of ", round);
        lines.count(" ticks, in blocks: ", count_blocks(alloc, &site)?);
        lines.say("\n");
    }
    lines.done()
}

// In how many of the round's ticks the points that are asked are known as a block.
fn count_blocks(alloc: Global, site: &Site) -> Result<u64> {
    match blocks_of_panel(alloc, site.points.as_slice(), 1) {
        Ok(blocks) => Ok(blocks.len() as u64),
        Err(_) => bail!("no memory"),
    }
}

fn wanted_at(alloc: Global, last: u8, within: u64) -> Result<String> {
    let mut lines = Lines::new(alloc);
    for line in 1..5 {
        for address in 1..=last {
            if within == (address as u64 - 1) / 8 {
                lines.item(", ", "p");
                lines.number(line);
                lines.count("-", address as u64);
            }
        }
    }
    lines.done()
}

// A site with a point at each address of four loops of a panel, in the order of loops and addresses, or the last
// address of the last loop first.
fn full_site(alloc: Global, format: u8, last: u8, rising: bool) -> Result<String> {
    let mut lines = Lines::new(alloc);
    lines.count("format = ", format as u64);
    lines.say("\nsite = \"full\"\npanels = 1\n");
    lines.say("zone = [{ name = \"all\", panel = 1, number = 1 }]\n");
    for line in 1..5 {
        lines.count("[[loop]]\npanel = 1\nloop = ", line);
        lines.count("\nlast = ", last as u64);
        lines.say("\n");
    }
    if rising {
        say_rising(&mut lines, last);
    } else {
        say_falling(&mut lines, last);
    }
    lines.done()
}

fn say_rising(lines: &mut Lines, last: u8) {
    for line in 1..5 {
        for address in 1..=last {
            say_point(lines, line, address as u64);
        }
    }
}

fn say_falling(lines: &mut Lines, last: u8) {
    for line in (1..5).rev() {
        for address in (1..=last).rev() {
            say_point(lines, line, address as u64);
        }
    }
}

fn say_point(lines: &mut Lines, line: u64, address: u64) {
    lines.count("[[point]]\nname = \"p", line);
    lines.count("-", address);
    lines.count("\"\npanel = 1\nloop = ", line);
    lines.count("\naddress = ", address);
    lines.say("\nzone = \"all\"\n");
}
