ghost use Rattle.std.specs.Prelude.{◌≡◌};
ghost use Rattle.drill_record.specs.Records.{drawn_by as drawn_by_words, event_by as event_by_word};
ghost use Rattle.drill_record.specs.Records.{state_by as state_by_rest};
ghost use Rattle.drill_record.specs.Stands.{DrawsTick, StandsFor};

use crate::drawn::Drawn;
use rand_core::SeedableRng;
use rand_core::utils::NextWord;
use rand_pcg::Pcg32;
use site_types::{Event, PointState};

/// A generator, of which the words of some ticks were drawn.
#[derive(Drop)]
pub struct Drawer {
    pub(crate) draws: Pcg32,
}

impl Drawer {
    /// Before the first tick.
    pub fn new(seed: u64) -> Drawer
        ensures { StandsFor seed 0 result }
    {
        Drawer {
            draws: Pcg32::seed_from_u64(seed),
        }
    }

    /// Draws the next tick.
    pub fn next_tick(&mut self) -> Drawn
        ensures { DrawsTick self.old result self.new }
    {
        let first = self.draws.next_word();
        let second = self.draws.next_word();
        drawn_by(first, second)
    }
}

fn drawn_by(first: u32, second: u32) -> Drawn
    ensures { result ≡ drawn_by_words first second }
{
    Drawn {
        event: event_by(first),
        reversed: second % 2 == 1,
    }
}

// A word that is a multiple of 4 tells an event.
fn event_by(word: u32) -> Option<Event>
    ensures { result ≡ event_by_word word }
{
    if word % 4 == 0 {
        Some(Event::Point {
            point: (word / 4 % 3072) as u16,
            state: state_by(word / 12_288 % 3),
        })
    } else {
        None
    }
}

fn state_by(rest: u32) -> PointState
    ensures { result ≡ state_by_rest rest }
{
    match rest {
        0 => PointState::Quiet,
        1 => PointState::Alarm,
        _ => PointState::Gone,
    }
}
