ghost use Rattle.std.specs.Prelude.{◌≡◌};
ghost use Rattle.face_reading.specs.declared.text_refusal.TextRefusal.TheVariants.{NoMemory};

use thiserror::Error;
use tick_units::NoMemory;

/// Why a text isn't read.
#[derive(Clone, Copy, Debug, Error)]
pub enum TextRefusal {
    /// It is the text of no run. The line with this number, counted from 1, is the first that no such text
    /// has behind the lines before it.
    #[error("line {0} is wrong")]
    BadLine(u64),
    /// Memory that reading asked for was refused.
    #[error("no memory")]
    NoMemory,
}

impl From<NoMemory> for TextRefusal {
    ghost from_gives = { λ _ e. e ≡ NoMemory };

    fn from(_refused: NoMemory) -> TextRefusal {
        TextRefusal::NoMemory
    }
}
