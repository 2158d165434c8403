ghost use Rattle.std.specs.Prelude.{◌≡◌, ℕ, ◌+◌, ◌≤◌, ◌<◌, Bool, true, length};

use crate::links::Links;
use crate::way::Way;

/// The way up from each of 8 panels to each.
#[derive(Clone, Copy)]
pub(crate) struct Ways {
    /// The ways from panel 1 first, that to panel 1 first among them.
    ways: [Way; 64],
}

impl Ways {
    ghost use Rattle.joined_panels.specs.Stretches.{KnowsWay, KnowsWays, TakesWays};

    pub(crate) fn new() -> Ways
        ensures { (was_up : ℕ → ℕ → ℕ → Bool) (spread : ℕ) → 1 ≤ spread
            → ((from to : ℕ) → was_up from to 0 ≡ true) → KnowsWays was_up spread 0 result }
    {
        Ways {
            ways: [Way::UP; 64],
        }
    }

    /// Takes which links are up at the tick after those that the ways know.
    pub(crate) fn take_links(&mut self, links: &Links, now: u64, spread: u64)
        requires { 1 ≤ spread }
        ensures { TakesWays links.now now spread self.old self.new }
    {
        for place in 0..64 {
            let up = links.has_way_up(place / 8 + 1, place % 8 + 1);
            let way = &mut self.ways[place as usize];
            way.take(up, now, spread);
        }
    }

    /// The way up from one panel to another.
    pub(crate) fn way(&self, from: u8, to: u8) -> Way
        requires { (1 ≤ from) × (from ≤ 8) × (1 ≤ to) × (to ≤ 8) }
        ensures { (was_up : ℕ → ℕ → ℕ → Bool) (spread known : ℕ)
            → KnowsWays was_up spread known self.now
            → KnowsWay (was_up from to) spread known result }
    {
        let place = 8 * (from - 1) + (to - 1);
        self.ways[place as usize]
    }
}
