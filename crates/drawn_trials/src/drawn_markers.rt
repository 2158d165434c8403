//! The outputs and markers of drawn sites.

use crate::drawn_site::{Counts, between};
use rand_pcg::Pcg32;
use trial_cases::{Lines, below};

/// The outputs of all panels, and the markers that ask for them: two to five, each with the next ones alone among its
/// terms, so that none depends on itself.
pub(crate) fn say_markers(lines: &mut Lines, counts: &[Counts], draws: &mut Pcg32) {
    let markers = between(draws, 2, 5);
    let mut panel: u64 = 1;
    for own in counts {
        for number in 1..=own.outputs {
            say_output(lines, panel, number, markers, draws);
        }
        panel = panel.saturating_add(1);
    }
    for marker in 1..=markers {
        say_marker(lines, marker, markers, counts, draws);
    }
}

// An output of a panel. Every other one has a delay.
fn say_output(lines: &mut Lines, panel: u64, number: u64, markers: u64, draws: &mut Pcg32) {
    lines.count("[[output]]\npanel = ", panel);
    lines.count("\nname = \"o", panel);
    lines.count("-", number);
    lines.count(
        "\"\nnumber = ",
        number.saturating_mul(16).saturating_sub(below(draws, 16)),
    );
    lines.say("\nkind = \"");
    lines.say(match below(draws, 4) {
        0 => "sounder",
        1 => "routing",
        2 => "protection",
        _ => "relay",
    });
    lines.count("\"\nwhen = \"m", between(draws, 1, markers));
    lines.count(
        "\"\ndelay = ",
        below(draws, 2).saturating_mul(below(draws, 20)),
    );
    lines.say("\n");
}

fn say_marker(lines: &mut Lines, marker: u64, markers: u64, counts: &[Counts], draws: &mut Pcg32) {
    let terms = between(draws, 1, 4);
    lines.count("[[marker]]\nname = \"m", marker);
    match below(draws, 4) {
        0 => lines.say("\"\nkind = \"all\"\n"),
        1 => {
            lines.say("\"\nkind = \"atleast\"\n");
            lines.count("count = ", between(draws, 1, terms.min(2)));
            lines.say("\n");
        }
        _ => lines.say("\"\nkind = \"any\"\n"),
    }
    lines.say("terms = [");
    for _term in 0..terms {
        say_term(lines, marker, markers, counts, draws);
    }
    lines.say("]\n");
}

// A zone in every other case, else the call points of one, the fault of a panel or a later marker.
fn say_term(lines: &mut Lines, marker: u64, markers: u64, counts: &[Counts], draws: &mut Pcg32) {
    let place = below(draws, counts.len() as u64);
    let panel = place.saturating_add(1);
    let zones = match counts.get(place as usize) {
        Some(own) => own.zones,
        None => 1,
    };
    match below(draws, 8) {
        0 => lines.count("\"fault:", panel),
        1 if marker < markers => {
            lines.count(
                "\"marker:m",
                between(draws, marker.saturating_add(1), markers),
            );
        }
        kind => {
            lines.say(if kind <= 3 { "\"manual:z" } else { "\"zone:z" });
            lines.number(panel);
            lines.count("-", between(draws, 1, zones));
        }
    }
    lines.say("\", ");
}
