//! Small drawn sites, as the text of a site file: one to three panels in either format, each with one or two loops of
//! up to three sections, zones of all types with partners and without, outputs of all kinds, and markers of all kinds.

use crate::drawn_markers::say_markers;
use anyhow::Result;
use rand_pcg::Pcg32;
use std::alloc::Global;
use trial_cases::{Lines, below};

/// The digests of the codes 1234, abc and hello.
const CODES: &str = "level2 = [\"03ac674216f3e15c761ee1a5e255f067953623c8b388b4459e13f978d7c846f4\"]
level3 = [\"ba7816bf8f01cfea414140de5dae2223b00361a396177a9cb410ff61f20015ad\"]
level4 = [\"2cf24dba5fb0a30e26e83b2ac5b9e29e1b161e5c1fa7425e73043362938b9824\"]
";

/// The zones and the outputs that a panel has, numbered from 1.
#[derive(Clone, Copy)]
pub(crate) struct Counts {
    pub(crate) zones: u64,
    pub(crate) outputs: u64,
}

/// The text of a drawn site.
pub(crate) fn drawn_site(alloc: Global, draws: &mut Pcg32) -> Result<String> {
    let format = between(draws, 1, 2);
    let panels = between(draws, 1, 3);
    let mut lines = Lines::new(alloc);
    lines.count("format = ", format);
    lines.count("\nsite = \"drawn\"\npanels = ", panels);
    lines.say("\n");
    lines.say(CODES);
    lines.count("mains_wait = ", below(draws, 20));
    lines.say("\n");
    let mut counts: Vec<Counts> = Vec::new(alloc);
    for panel in 1..=panels {
        let own = Counts {
            zones: between(draws, 1, 3),
            outputs: between(draws, 1, 2),
        };
        say_zones(&mut lines, format, panel, own.zones, draws);
        say_loops(&mut lines, panel, own.zones, draws);
        counts.push(own)?;
    }
    say_markers(&mut lines, &counts, draws);
    lines.done()
}

/// A number from a least one to a greatest one.
pub(crate) fn between(draws: &mut Pcg32, least: u64, greatest: u64) -> u64 {
    let span = greatest.saturating_sub(least).saturating_add(1);
    least.saturating_add(below(draws, span))
}

// The zones of a panel. Two that follow one another may be partners.
fn say_zones(lines: &mut Lines, format: u64, panel: u64, zones: u64, draws: &mut Pcg32) {
    let mut kind = 0;
    let mut is_second = false;
    for number in 1..=zones {
        lines.count("[[zone]]\npanel = ", panel);
        lines.count("\nname = \"z", panel);
        lines.count("-", number);
        lines.count(
            "\"\nnumber = ",
            number.saturating_mul(10).saturating_sub(below(draws, 10)),
        );
        lines.say("\n");
        if is_second {
            say_type(lines, format, kind);
            say_partner(lines, panel, number.saturating_sub(1));
            is_second = false;
        } else {
            kind = below(draws, 4);
            say_type(lines, format, kind);
            if kind >= 2 && number < zones && below(draws, 3) > 0 {
                say_partner(lines, panel, number.saturating_add(1));
                is_second = true;
            }
        }
    }
}

fn say_type(lines: &mut Lines, format: u64, kind: u64) {
    match kind {
        0 => lines.say("type = \"none\"\n"),
        1 => {
            lines.count("type = \"a\"\nverify = ", format.saturating_mul(12));
            lines.count("\nwithin = ", format.saturating_mul(40));
            lines.say("\n");
        }
        2 => {
            lines.count("type = \"b\"\nwithin = ", format.saturating_mul(600));
            lines.say("\n");
        }
        _ => lines.say("type = \"c\"\n"),
    }
}

fn say_partner(lines: &mut Lines, panel: u64, number: u64) {
    lines.count("partner = \"z", panel);
    lines.count("-", number);
    lines.say("\"\n");
}

// The loops of a panel. A section has eight addresses, and the points in it are of one zone.
fn say_loops(lines: &mut Lines, panel: u64, zones: u64, draws: &mut Pcg32) {
    let mut zone = below(draws, zones);
    for line in 1..=between(draws, 1, 2) {
        let sections = between(draws, 1, 3);
        lines.count("[[loop]]\npanel = ", panel);
        lines.count("\nloop = ", line);
        lines.count("\nlast = ", sections.saturating_mul(8));
        lines.say("\nisolators = [");
        for section in 1..sections {
            lines.number(section.saturating_mul(8));
            lines.say(", ");
        }
        lines.say("]\n");
        for section in 0..sections {
            for place in 0..between(draws, 1, 3) {
                let address = section
                    .saturating_mul(8)
                    .saturating_add(place)
                    .saturating_add(1);
                say_point(lines, panel, line, address, draws);
                lines.count("zone = \"z", panel);
                lines.count("-", zone.saturating_add(1));
                lines.say("\"\n");
            }
            zone = if zone.saturating_add(1) < zones {
                zone.saturating_add(1)
            } else {
                0
            };
        }
    }
}

// A point but for its zone. One in four is a manual call point.
fn say_point(lines: &mut Lines, panel: u64, line: u64, address: u64, draws: &mut Pcg32) {
    lines.count("[[point]]\npanel = ", panel);
    lines.count("\nname = \"p", panel);
    lines.count("-", line);
    lines.count("-", address);
    lines.count("\"\nloop = ", line);
    lines.count("\naddress = ", address);
    lines.say("\n");
    if below(draws, 4) == 0 {
        lines.say("kind = \"manual\"\n");
    }
}
