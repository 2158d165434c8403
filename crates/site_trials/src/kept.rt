//! What is retained of a site, and changes of it, in words by panel and number.

ghost use Rattle.std.specs.Prelude.{◌≡◌, ◌≤◌, true};
ghost use Rattle.site_types.specs.Changes.{CanApply};

use anyhow::{Result, bail};
use site_types::{Change, PointSet, Retained, has_bit_8, has_bit_32};
use std::alloc::Global;
use trial_cases::{Lines, Words};

/// What is retained where each line of a text tells one change: `panel 1 loop 1 address 9 disabled`,
/// `panel 1 zone 2 disabled`, `panel 1 output 32 disabled`, `panel 1 delays off`, `panel 1 counter 5`,
/// `panel 1 zone 2 in test`.
pub fn read_state(text: &str) -> Result<Retained> {
    let mut state = Retained::empty();
    for line in text.lines() {
        let change = change_in(Words::of(line))?;
        if !can_apply(&change) {
            bail!("out of range: {line}");
        }
        state.apply(&change);
    }
    Ok(state)
}

fn change_in(mut words: Words) -> Result<Change> {
    words.next();
    let panel = words.byte()?;
    match words.next() {
        "loop" => point_in(panel, words),
        "zone" => zone_in(panel, words),
        "output" => Ok(Change::Output {
            panel,
            number: words.byte()?,
            off: true,
        }),
        "delays" => Ok(Change::Delays { panel, off: true }),
        "counter" => Ok(Change::Count {
            panel,
            entries: words.next().parse::<u32>()?,
        }),
        other => bail!("nothing that is retained: {other}"),
    }
}

fn point_in(panel: u8, mut words: Words) -> Result<Change> {
    let line = words.byte()?;
    let address = address_in(&mut words)?;
    Ok(Change::Point {
        panel,
        line,
        address,
        off: true,
    })
}

// The number behind the word for it.
fn address_in(words: &mut Words) -> Result<u8> {
    words.next();
    words.byte()
}

fn zone_in(panel: u8, mut words: Words) -> Result<Change> {
    let number = words.byte()?;
    match words.rest() {
        "disabled" => Ok(Change::Zone {
            panel,
            number,
            off: true,
        }),
        "in test" => Ok(Change::Test {
            panel,
            number,
            on: true,
        }),
        other => bail!("no state of a zone: {other}"),
    }
}

// Whether what a change names has a place in what is retained.
fn can_apply(change: &Change) -> bool
    ensures { result ≡ true → CanApply change.now }
{
    match *change {
        Change::Point {
            panel,
            line,
            address,
            ..
        } => is_panel(panel) && line >= 1 && line <= 4 && address >= 1 && address <= 192,
        Change::Zone { panel, number, .. }
        | Change::Output { panel, number, .. }
        | Change::Test { panel, number, .. } => is_panel(panel) && number >= 1 && number <= 32,
        Change::Delays { panel, .. } | Change::Count { panel, .. } | Change::Clear { panel } => {
            is_panel(panel)
        }
    }
}

fn is_panel(panel: u8) -> bool
    ensures { result ≡ true → (1 ≤ panel) × (panel ≤ 8) }
{
    panel >= 1 && panel <= 8
}

/// A change in words.
pub fn say_change(lines: &mut Lines, change: &Change) {
    lines.count("panel ", panel_of(change) as u64);
    match *change {
        Change::Point {
            line,
            address,
            off,
            ..
        } => {
            lines.count(" loop ", line as u64);
            lines.count(" address ", address as u64);
            lines.say(off_word(off));
        }
        Change::Zone { number, off, .. } => say_number(lines, " zone ", number, off_word(off)),
        Change::Output { number, off, .. } => say_number(lines, " output ", number, off_word(off)),
        Change::Test { number, on, .. } => say_number(lines, " zone ", number, test_word(on)),
        Change::Delays { off, .. } => {
            lines.say(if off { " delays off" } else { " delays on" });
        }
        Change::Count { entries, .. } => lines.count(" counter ", entries as u64),
        Change::Clear { .. } => lines.count(" counter ", 0),
    }
}

fn panel_of(change: &Change) -> u8 {
    match *change {
        Change::Point { panel, .. }
        | Change::Zone { panel, .. }
        | Change::Output { panel, .. }
        | Change::Test { panel, .. }
        | Change::Delays { panel, .. }
        | Change::Count { panel, .. }
        | Change::Clear { panel } => panel,
    }
}

fn off_word(off: bool) -> &'static str {
    if off { " disabled" } else { " enabled" }
}

fn test_word(on: bool) -> &'static str {
    if on { " in test" } else { " out of test" }
}

// What is so of what has a number on its panel.
fn say_number(lines: &mut Lines, kind: &str, number: u8, word: &str) {
    lines.count(kind, number as u64);
    lines.say(word);
}

/// The changes that make what is retained out of nothing, one a line.
pub fn tell_state(alloc: Global, state: &Retained) -> Result<String> {
    let mut lines = Lines::new(alloc);
    for panel in 1..=8 {
        let place = panel as usize - 1;
        say_points(&mut lines, panel, &state.points[place]);
        say_numbers(
            &mut lines,
            panel,
            " zone ",
            state.zones[place],
            " disabled\n",
        );
        say_numbers(
            &mut lines,
            panel,
            " output ",
            state.outputs[place],
            " disabled\n",
        );
        say_numbers(
            &mut lines,
            panel,
            " zone ",
            state.tests[place],
            " in test\n",
        );
        if has_bit_8(state.delays_off, panel - 1) {
            lines.count("panel ", panel as u64);
            lines.say(" delays off\n");
        }
        let counter = state.counters[place];
        if counter > 0 {
            lines.count("panel ", panel as u64);
            lines.count(" counter ", counter as u64);
            lines.say("\n");
        }
    }
    lines.done()
}

fn say_points(lines: &mut Lines, panel: u8, points: &PointSet) {
    for line in 1..=4 {
        for address in 1..=192 {
            if points.contains(line, address) {
                lines.count("panel ", panel as u64);
                lines.count(" loop ", line as u64);
                lines.count(" address ", address as u64);
                lines.say(" disabled\n");
            }
        }
    }
}

fn say_numbers(lines: &mut Lines, panel: u8, kind: &str, mask: u32, word: &str) {
    for number in 1..=32 {
        if has_bit_32(mask, number - 1) {
            lines.count("panel ", panel as u64);
            say_number(lines, kind, number, word);
        }
    }
}
