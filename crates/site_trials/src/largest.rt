//! The largest site that a file of format 1 can spell.

ghost use Rattle.std.specs.Prelude.{◌≤◌};

use anyhow::Result;
use std::alloc::Global;
use trial_cases::Lines;

/// Eight panels of 4 loops, each loop with 96 points and isolators between its 8 zones of 12 points, 32
/// outputs a panel, and 256 markers of 64 terms.
pub fn largest_site(alloc: Global) -> Result<String> {
    let mut lines = Lines::new(alloc);
    lines.say("format = 1\nsite = \"largest\"\npanels = 8\n");
    for panel in 1..=8 {
        for line in 1..=4 {
            say_loop(&mut lines, panel, line);
        }
        for number in 1..=32 {
            say_zone(&mut lines, panel, number);
            say_output(&mut lines, panel, number);
        }
    }
    for number in 1..=256 {
        say_marker(&mut lines, number);
    }
    lines.done()
}

// A loop and its points.
fn say_loop(lines: &mut Lines, panel: u64, line: u64)
    requires { (1 ≤ line) × (line ≤ 4) }
{
    lines.count("[[loop]]\npanel = ", panel);
    lines.count("\nloop = ", line);
    lines.say("\nlast = 96\nisolators = [12, 24, 36, 48, 60, 72, 84]\n");
    for address in 1..=96 {
        say_point(lines, panel, line, address);
    }
}

fn say_point(lines: &mut Lines, panel: u64, line: u64, address: u64)
    requires line { (1 ≤ line) × (line ≤ 4) }
    requires address { (1 ≤ address) × (address ≤ 96) }
{
    let zone = (line - 1) * 8 + (address - 1) / 12 + 1;
    lines.count("[[point]]\nname = \"p", panel);
    lines.count("-", line);
    lines.count("-", address);
    lines.count("\"\npanel = ", panel);
    lines.count("\nloop = ", line);
    lines.count("\naddress = ", address);
    lines.count("\nzone = \"z", panel);
    lines.count("-", zone);
    lines.say("\"\n");
}

fn say_zone(lines: &mut Lines, panel: u64, number: u64) {
    lines.count("[[zone]]\nname = \"z", panel);
    lines.count("-", number);
    lines.count("\"\npanel = ", panel);
    lines.count("\nnumber = ", number);
    lines.say("\n");
}

fn say_output(lines: &mut Lines, panel: u64, number: u64) {
    lines.count("[[output]]\nname = \"o", panel);
    lines.count("-", number);
    lines.count("\"\npanel = ", panel);
    lines.count("\nnumber = ", number);
    lines.count("\nkind = \"sounder\"\nwhen = \"m", number);
    lines.say("\"\n");
}

fn say_marker(lines: &mut Lines, number: u64) {
    lines.count("[[marker]]\nname = \"m", number);
    lines.say("\"\nkind = \"any\"\nterms = [");
    for panel in 1..=2 {
        for zone in 1..=32 {
            lines.count("\"zone:z", panel);
            lines.count("-", zone);
            lines.say("\",");
        }
    }
    lines.say("]\n");
}
