ghost use Rattle.std.specs.Prelude.{◌≡◌};
ghost use Rattle.whole_records.specs.declared.record_refusal.RecordRefusal.TheVariants.{NoMemory};

use record_lines::Refusal;
use thiserror::Error;
use tick_units::NoMemory;

/// Why a record isn't read.
#[derive(Clone, Copy, Debug, PartialEq, Eq, Error)]
pub enum RecordRefusal {
    /// A line is refused, or the record ends without its line `end`.
    #[error("a line is refused")]
    Line(Refusal),
    /// Memory that reading asked for was refused.
    #[error("no memory")]
    NoMemory,
}

impl From<NoMemory> for RecordRefusal {
    ghost from_gives = { λ _ e. e ≡ NoMemory };

    fn from(_refused: NoMemory) -> RecordRefusal {
        RecordRefusal::NoMemory
    }
}
