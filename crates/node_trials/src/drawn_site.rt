//! Drawn sites of so many panels, each with a loop of four points, two zones and an output for which zones and faults
//! of any panel ask.

ghost use Rattle.std.specs.Prelude.{IfOk};
ghost use Rattle.site_types.specs.Valid.{IsValid};

use anyhow::{Result, bail};
use rand_pcg::Pcg32;
use site_config::read_site;
use site_types::Site;
use std::alloc::Global;
use trial_cases::{Lines, below};

/// The digests of the codes 1234, abc and hello, as the levels 2 to 4 have them.
const DIGESTS: [&str; 3] = [
    "03ac674216f3e15c761ee1a5e255f067953623c8b388b4459e13f978d7c846f4",
    "ba7816bf8f01cfea414140de5dae2223b00361a396177a9cb410ff61f20015ad",
    "2cf24dba5fb0a30e26e83b2ac5b9e29e1b161e5c1fa7425e73043362938b9824",
];

/// The addresses of a loop that have points: the first two in zone 1, the others in zone 2.
const ADDRESSES: [u64; 4] = [1, 2, 9, 10];

/// The text of a drawn site.
pub(crate) fn drawn_site(alloc: Global, panels: u8, draws: &mut Pcg32) -> Result<String> {
    let format = below(draws, 2).saturating_add(1);
    let mut lines = Lines::new(alloc);
    lines.count("format = ", format);
    lines.count("\nsite = \"ring\"\npanels = ", panels as u64);
    lines.count("\nmains_wait = ", below(draws, 20));
    lines.say("\n");
    let mut level = 2;
    for digest in DIGESTS {
        lines.count("level", level);
        lines.say(" = [\"");
        lines.say(digest);
        lines.say("\"]\n");
        level = level.saturating_add(1).min(4);
    }
    for panel in 1..=panels {
        say_zones(&mut lines, format, panel as u64, draws);
        say_points(&mut lines, panel as u64, draws);
        say_output(&mut lines, panel as u64, panels as u64, draws);
    }
    lines.done()
}

/// The site that a drawn text spells.
pub(crate) fn site_of(alloc: Global, text: &str) -> Result<Site>
    ensures { IfOk result IsValid }
{
    let Ok(site) = read_site(alloc, text.as_bytes()) else {
        bail!("no site: {text}");
    };
    Ok(site)
}

fn say_zones(lines: &mut Lines, format: u64, panel: u64, draws: &mut Pcg32) {
    for zone in 1..=2 {
        lines.count("[[zone]]\npanel = ", panel);
        lines.count("\nnumber = ", number_in(zone, draws));
        lines.count("\nname = \"z", panel);
        lines.count("-", zone);
        match below(draws, 4) {
            0 => {
                lines.count("\"\ntype = \"a\"\nverify = ", format.saturating_mul(12));
                lines.count("\nwithin = ", format.saturating_mul(40));
                lines.say("\n");
            }
            1 => {
                lines.count("\"\ntype = \"b\"\nwithin = ", format.saturating_mul(600));
                lines.say("\n");
            }
            2 => lines.say("\"\ntype = \"c\"\n"),
            _ => lines.say("\"\ntype = \"none\"\n"),
        }
    }
}

// A number of the first or the second sixteen.
fn number_in(half: u64, draws: &mut Pcg32) -> u64 {
    half.saturating_mul(16).saturating_sub(below(draws, 16))
}

fn say_points(lines: &mut Lines, panel: u64, draws: &mut Pcg32) {
    lines.count("[[loop]]\npanel = ", panel);
    lines.say("\nloop = 1\nlast = 16\nisolators = [8]\n");
    for address in ADDRESSES {
        lines.count("[[point]]\nloop = 1\npanel = ", panel);
        lines.count("\naddress = ", address);
        lines.count("\nname = \"p", panel);
        lines.count("-", address);
        lines.count("\"\nzone = \"z", panel);
        lines.say(if address <= 8 { "-1\"\n" } else { "-2\"\n" });
        lines.say(match below(draws, 3) {
            0 => "kind = \"manual\"\n",
            _ => "",
        });
    }
}

// An output, every other one with a delay, and the marker that asks for it: by two to four terms.
fn say_output(lines: &mut Lines, panel: u64, panels: u64, draws: &mut Pcg32) {
    let kinds = ["sounder", "routing", "protection", "relay"];
    lines.count("[[output]]\npanel = ", panel);
    lines.count("\nnumber = ", number_in(1, draws));
    lines.count("\nname = \"o", panel);
    lines.count("\"\nwhen = \"m", panel);
    lines.say("\"\nkind = \"");
    lines.say(kinds.get(below(draws, 4) as usize).unwrap_or(&"relay"));
    lines.count(
        "\"\ndelay = ",
        below(draws, 2).saturating_mul(below(draws, 12)),
    );
    lines.count("\n[[marker]]\nname = \"m", panel);
    lines.say(match below(draws, 3) {
        0 => "\"\nkind = \"atleast\"\ncount = 2\nterms = [",
        _ => "\"\nkind = \"any\"\nterms = [",
    });
    for _term in 0..below(draws, 3).saturating_add(2) {
        say_term(lines, below(draws, panels).saturating_add(1), draws);
    }
    lines.say("]\n");
}

// A zone of a panel, the call points of one, or now and then its fault.
fn say_term(lines: &mut Lines, panel: u64, draws: &mut Pcg32) {
    match below(draws, 6) {
        0 => lines.count("\"fault:", panel),
        kind => {
            lines.count(if kind == 1 { "\"manual:z" } else { "\"zone:z" }, panel);
            lines.count("-", below(draws, 2).saturating_add(1));
        }
    }
    lines.say("\", ");
}
