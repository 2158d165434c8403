//! Words that go round drawn rings, against a plain program that walks all chains of turns.

ghost use Rattle.std.specs.Prelude.{◌≡◌, ◌≤◌};

use anyhow::{Result, bail};
use panel_links::Ring;
use rand_pcg::Pcg32;
use site_types::Word;
use std::alloc::Global;
use tick_units::Tick;
use trial_cases::{Sample, below, otherwise};

/// The stream of numbers that is drawn from.
const STREAM: u64 = 54;

/// A turn of a panel, in which it had a word of its own with this stamp, and the links that were up in its
/// tick, link 1 first.
#[derive(Clone, Copy)]
struct Turn {
    tick: u64,
    panel: u8,
    stamp: u64,
    up: [bool; 8],
}

// The word that a panel makes at a stamp: another one for each panel and each stamp.
fn word_of(panel: u8, stamp: u64) -> Word {
    if stamp == 0 {
        return Word::default();
    }
    Word {
        stamp: Tick(stamp),
        alarm: (stamp % 1000) as u32 * 16 + panel as u32,
        ..Word::default()
    }
}

// Whether two panels are neighbours over a link that is up in a turn's tick.
fn are_joined(panels: u8, turn: &Turn, other: u8) -> bool {
    let mut link: u8 = 1;
    for up in &turn.up {
        let next = if link == panels {
            1
        } else {
            link.saturating_add(1)
        };
        let ends = turn.panel == link && other == next || turn.panel == next && other == link;
        if *up && link <= panels && panels > 1 && ends {
            return true;
        }
        link = link.saturating_add(1);
    }
    false
}

// Whether a tick carries the words of a panel: up to four panels all ticks do, else odd ticks those of the first four.
fn carries(panels: u8, tick: u64, panel: u8) -> bool {
    panels <= 4 || (tick % 2 == 1) == (panel <= 4)
}

// The greatest stamp over all chains of turns from a panel to another, 0 where there is none. A chain begins
// with a turn of the one, each further turn is later and of a neighbour of the panel before, over a link that
// is up, in a tick that carries the word, and the last is of the other.
fn heard_by_chains(alloc: Global, panels: u8, turns: &[Turn], at: u8, of: u8) -> Result<u64> {
    let mut heard = 0;
    let mut ends: Vec<(usize, u64)> = Vec::new(alloc);
    for (place, turn) in turns.iter().enumerate() {
        if turn.panel == of {
            ends.push((place, turn.stamp))?;
        }
    }
    for _ in 0..10_000_000 {
        let Some((end, stamp)) = ends.pop() else {
            return Ok(heard);
        };
        let Some(last) = turns.get(end) else {
            bail!("no such turn");
        };
        if last.panel == at && stamp > heard {
            heard = stamp;
        }
        for (place, next) in turns.iter().enumerate() {
            if place > end
                && are_joined(panels, next, last.panel)
                && carries(panels, next.tick, of)
            {
                ends.push((place, stamp))?;
            }
        }
    }
    bail!("too many chains")
}

// The panels in a drawn order.
fn drawn_order(alloc: Global, panels: u8, draws: &mut Pcg32) -> Result<Vec<u8>> {
    let mut order: Vec<u8> = Vec::new(alloc);
    for before in 0..panels {
        order.push(before.saturating_add(1))?;
    }
    for place in 0..order.len() {
        let other = below(draws, panels as u64) as usize;
        if other < order.len() && place < order.len() {
            order.swap(place, other);
        }
    }
    Ok(order)
}

// The links in a drawn tick: three of four are up.
fn drawn_links(draws: &mut Pcg32) -> [bool; 8] {
    [
        below(draws, 4) > 0,
        below(draws, 4) > 0,
        below(draws, 4) > 0,
        below(draws, 4) > 0,
        below(draws, 4) > 0,
        below(draws, 4) > 0,
        below(draws, 4) > 0,
        below(draws, 4) > 0,
    ]
}

// A report on each link.
fn set_links(ring: &mut Ring, panels: u8, up: &[bool; 8])
    requires { ring.old.panels ≡ panels }
    ensures { ring.new.panels ≡ panels }
{
    for link in 1..9 {
        ring.set_link(link, up[link as usize - 1]);
    }
}

fn make_turn(ring: &mut Ring, panels: u8, turn: &Turn)
    requires { ring.old.panels ≡ panels }
    ensures { ring.new.panels ≡ panels }
{
    if turn.panel >= 1 && turn.panel <= panels {
        ring.turn(Tick(turn.tick), turn.panel, word_of(turn.panel, turn.stamp));
    }
}

// Whether each panel keeps of each what the chains so far make of it.
fn is_kept(alloc: Global, ring: &Ring, panels: u8, turns: &[Turn]) -> Result<bool>
    requires { ring.now.panels ≡ panels }
{
    for at in 1..panels + 1 {
        for of in 1..panels + 1 {
            let heard = heard_by_chains(alloc, panels, turns, at, of)?;
            if ring.heard(at, of).0 != heard || ring.word(at, of) != word_of(of, heard) {
                return Ok(false);
            }
        }
    }
    Ok(true)
}

// The turns of a tick in a drawn order, over drawn links. The word of a panel is of its tick or of the one before.
fn drawn_turns(alloc: Global, panels: u8, tick: u64, draws: &mut Pcg32) -> Result<Vec<Turn>>
    requires { 1 ≤ tick }
{
    let up = drawn_links(draws);
    let order = drawn_order(alloc, panels, draws)?;
    let mut turns: Vec<Turn> = Vec::new(alloc);
    for panel in &order {
        turns.push(Turn {
            tick,
            panel: *panel,
            stamp: tick - below(draws, 2),
            up,
        })?;
    }
    Ok(turns)
}

// The turns of a tick, each link being as it is told.
fn make_turns(ring: &mut Ring, panels: u8, turns: &[Turn])
    requires { ring.old.panels ≡ panels }
    ensures { ring.new.panels ≡ panels }
{
    for turn in turns {
        set_links(ring, panels, &turn.up);
        make_turn(ring, panels, turn);
    }
}

// So many ticks: whether what is kept is what the chains make, after each.
fn try_ring(alloc: Global, panels: u8, ticks: u64, seed: u64) -> Result<bool>
    requires { (1 ≤ panels) × (panels ≤ 8) }
{
    let mut draws = Pcg32::new(seed, STREAM);
    let mut ring = Ring::new(panels);
    let mut made: Vec<Turn> = Vec::new(alloc);
    for tick in 1..=ticks {
        let turns = drawn_turns(alloc, panels, tick, &mut draws)?;
        make_turns(&mut ring, panels, &turns);
        made.extend_from_slice(&turns)?;
        if !is_kept(alloc, &ring, panels, &made)? {
            return Ok(false);
        }
    }
    Ok(true)
}

/// Whether the panels of drawn rings keep the words that come by chains of turns: `6 ticks, 50 from seed 2`.
pub(crate) fn try_rings(alloc: Global, panels: &str, line: &str) -> Result<String> {
    let panels = panels.parse::<u8>()?;
    let Some((ticks, sample)) = line.split_once(" ticks, ") else {
        bail!("no ticks: {line}");
    };
    let ticks = ticks.parse::<u8>()? as u64;
    let sample = Sample::read(sample)?;
    if panels < 1 || panels > 8 {
        bail!("{panels} panels");
    }
    for seed in sample.seeds() {
        if !try_ring(alloc, panels, ticks, seed)? {
            return otherwise(alloc, "chains", seed);
        }
    }
    sample.all_alike(alloc, " histories: all alike")
}
