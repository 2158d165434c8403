use anyhow::Result;
use std::alloc::Global;
use trial_cases::Lines;

/// The clauses, in the order in which `System::face` has them. An open piece and a short one are counted apart, and the
/// outputs with a delay once more.
const CLAUSES: [&str; 24] = [
    "due zone is shown",
    "shown zone is caused",
    "signal is shown",
    "joined signal is shown",
    "single detector is shown",
    "lone zone is shown",
    "stands again",
    "due output is on",
    "due output with a delay is on",
    "indicated output is on",
    "signalled output is on",
    "on output is caused",
    "away point is missing",
    "bad supply is shown",
    "cut off panel is silent",
    "open piece is shown",
    "short piece is shown",
    "link is shown",
    "settings are shown",
    "accepted is shown",
    "disablement is shown",
    "fire is counted",
    "counter adds up",
    "cleared counter adds up",
];

/// How often what a clause asks for held, and how often what it promises was not told then.
#[derive(Clone, Copy)]
struct Count {
    held: u64,
    broken: u64,
}

/// The counts of all clauses.
#[derive(Drop)]
pub struct Tally {
    counts: Vec<Count>,
}

impl Tally {
    pub fn new(alloc: Global) -> Result<Tally> {
        let mut counts = Vec::new(alloc);
        for _clause in CLAUSES {
            counts.push(Count { held: 0, broken: 0 })?;
        }
        Ok(Tally { counts })
    }

    /// What a clause asks for held, and what it promises was told or not.
    pub(crate) fn note(&mut self, clause: &str, is_kept: bool) {
        for (place, words) in CLAUSES.iter().enumerate() {
            if *words == clause {
                if let Some(count) = self.counts.get_mut(place) {
                    count.held = count.held.saturating_add(1);
                    count.broken = count.broken.saturating_add(!is_kept as u64);
                }
            }
        }
    }

    /// A line for each clause, those of which nothing held too.
    pub fn say_all(&self, lines: &mut Lines) {
        for (words, count) in CLAUSES.iter().zip(self.counts.iter()) {
            lines.say("    ");
            lines.say(words);
            lines.count(": held ", count.held);
            if count.broken > 0 {
                lines.count(", broken ", count.broken);
            }
            lines.say("\n");
        }
    }
}
