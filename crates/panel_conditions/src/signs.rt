ghost use Rattle.std.specs.Prelude.{◌≡◌};
ghost use Rattle.panel_conditions.specs.Parts.{no_signs};
ghost use Rattle.panel_conditions.specs.Words.{word_with};

use site_types::Word;
use tick_units::Tick;

/// What is told of the zones of a panel, bit `number - 1`.
#[derive(Clone, Copy)]
pub struct Signs {
    pub alarm: u32,
    pub manual: u32,
    pub released: u32,
    pub first: u32,
}

impl Signs {
    pub fn none() -> Signs
        ensures { result ≡ no_signs }
    {
        Signs {
            alarm: 0,
            manual: 0,
            released: 0,
            first: 0,
        }
    }

    /// The word that these signs make.
    pub fn word(&self, stamp: Tick, fault: bool) -> Word
        ensures { result ≡ word_with stamp.0 fault self.now }
    {
        Word {
            stamp,
            alarm: self.alarm,
            manual: self.manual,
            released: self.released,
            first: self.first,
            fault,
        }
    }
}
