ghost use Rattle.std.specs.Prelude.{◌≡◌};
ghost use Rattle.plain_panel.specs.Network.{no_indications, indications_then};

use panel_conditions::is_news;
use site_types::{FaultSet, Word};
use tick_units::Tick;

/// What a panel shows of its own.
#[derive(Clone, Copy)]
pub struct Indications {
    pub word: Word,
    pub faults: FaultSet,
    /// The last tick in which something was newly shown; 0 for none.
    pub news: Tick,
}

impl Indications {
    /// Before the first turn of Hold.
    pub(crate) fn nothing() -> Indications
        ensures { result ≡ no_indications }
    {
        Indications {
            word: Word::default(),
            faults: FaultSet::default(),
            news: Tick(0),
        }
    }

    /// After a turn of Hold made now.
    pub(crate) fn then(&self, now: Tick, word: Word, faults: FaultSet) -> Indications
        ensures { result ≡ indications_then self.now now word faults }
    {
        Indications {
            word,
            faults,
            news: if is_news(&word, &faults, &self.word, &self.faults) {
                now
            } else {
                self.news
            },
        }
    }
}
