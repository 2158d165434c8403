ghost use Rattle.std.specs.Prelude.{◌≡◌, [], ◌∷◌, true};
ghost use Rattle.panel_conditions.specs.Changes.{ShowsAgain};
ghost use Rattle.panel_conditions.specs.Stands.{entries_then, nothing_shown, shown_then};

use crate::news::{is_news, sounds};
use site_types::{Buzzer, FaultSet, Word};
use tick_units::Tick;

/// What a panel shows of its own after a turn.
#[derive(Clone, Copy)]
pub struct Shown {
    pub word: Word,
    pub faults: FaultSet,
    /// The last tick at which something was newly shown; 0 for none.
    pub newly: Tick,
    /// How often the panel entered the fire alarm condition.
    pub entries: u64,
    pub buzzer: Buzzer,
}

impl Shown {
    pub fn nothing() -> Shown
        ensures { result ≡ nothing_shown }
    {
        Shown {
            word: Word::default(),
            faults: FaultSet::default(),
            newly: Tick(0),
            entries: 0,
            buzzer: Buzzer::Off,
        }
    }

    /// What is shown after one more turn, which made this word and these faults; the last mute was done in a tick.
    pub fn after(&self, word: Word, faults: FaultSet, muted: Tick) -> Shown
        ensures { result ≡ shown_then self.now word faults muted }
    {
        let newly = if is_news(&word, &faults, &self.word, &self.faults) {
            word.stamp
        } else {
            self.newly
        };
        Shown {
            word,
            faults,
            newly,
            entries: entries_after(self.entries, &word, &self.word),
            buzzer: sounds(&word, muted.0 < newly.0),
        }
    }

    /// Whether zones in alarm and in first state, faults and buzzer are shown as before.
    pub fn shows_again(&self, before: &Shown) -> bool
        ensures same { result ≡ true → ShowsAgain before.now self.now }
        ensures must { ShowsAgain before.now self.now → result ≡ true }
    {
        self.word.alarm == before.word.alarm
            && self.word.first == before.word.first
            && self.buzzer == before.buzzer
            && self.faults == before.faults
    }
}

// How often the panel entered the fire alarm condition, with a word after another.
fn entries_after(entries: u64, word: &Word, before: &Word) -> u64
    ensures { result ≡ entries_then entries word.now before.now }
{
    if word.alarm != 0 && before.alarm == 0 {
        entries.saturating_add(1)
    } else {
        entries
    }
}
