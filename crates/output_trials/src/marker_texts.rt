//! Sites with drawn tables of markers of all kinds.

use anyhow::Result;
use rand_pcg::Pcg32;
use std::alloc::Global;
use trial_cases::{Lines, below};

/// A prime, so that each multiple of the places below it is an order of them.
const MARKERS: u64 = 13;

const ZONES: &str = r#"
format = 1
site = "drawn"
panels = 3
zone = [
  { name = "a", panel = 1, number = 1 },
  { name = "b", panel = 1, number = 32 },
  { name = "c", panel = 2, number = 7 },
  { name = "d", panel = 3, number = 1 },
]
marker = ["#;

/// The order in which a table's markers may depend on each other: each on those of lower rank.
#[derive(Clone, Copy)]
struct Ranks {
    factor: u64,
    first: u64,
}

impl Ranks {
    fn drawn(draws: &mut Pcg32) -> Ranks {
        Ranks {
            factor: 1 + below(draws, MARKERS - 1),
            first: below(draws, MARKERS),
        }
    }

    fn rank_of(self, marker: u64) -> u64 {
        self.factor.wrapping_mul(marker).wrapping_add(self.first) % MARKERS
    }

    // A marker of lower rank, where there is one.
    fn lower(self, marker: u64, draws: &mut Pcg32) -> Option<u64> {
        let own = self.rank_of(marker);
        let rank = below(draws, own);
        for other in 0..MARKERS {
            if self.rank_of(other) == rank && rank < own {
                return Some(other);
            }
        }
        None
    }
}

// The terms of a marker are drawn in order, each after its kind and what it names.
fn say_term(lines: &mut Lines, marker: u64, ranks: Ranks, draws: &mut Pcg32) {
    let zone = match below(draws, 4) {
        0 => "a",
        1 => "b",
        2 => "c",
        _ => "d",
    };
    let kind = below(draws, 7);
    match (kind, ranks.lower(marker, draws)) {
        (0, _) => lines.count("fault:", 1 + below(draws, 3)),
        (1, _) => {
            lines.say("manual:");
            lines.say(zone);
        }
        (2..=4, Some(other)) => lines.count("marker:m", other),
        _ => {
            lines.say("zone:");
            lines.say(zone);
        }
    }
}

fn say_marker(lines: &mut Lines, marker: u64, ranks: Ranks, draws: &mut Pcg32) {
    let count = 1 + below(draws, 5);
    lines.count("  { name = \"m", marker);
    lines.say("\", terms = [\"");
    say_term(lines, marker, ranks, draws);
    for _term in 1..count {
        lines.say("\", \"");
        say_term(lines, marker, ranks, draws);
    }
    lines.say("\"], kind = ");
    match below(draws, 3) {
        0 => lines.say("\"all\""),
        1 => lines.say("\"any\""),
        _ => lines.count("\"atleast\", count = ", 1 + below(draws, count)),
    }
    lines.say(" },\n");
}

/// A site with a drawn table of markers.
pub(crate) fn drawn_site(alloc: Global, draws: &mut Pcg32) -> Result<String> {
    let ranks = Ranks::drawn(draws);
    let mut lines = Lines::new(alloc);
    lines.say(ZONES);
    lines.say("\n");
    for marker in 0..MARKERS {
        say_marker(&mut lines, marker, ranks, draws);
    }
    lines.say("]\n");
    lines.done()
}
