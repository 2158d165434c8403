ghost use Rattle.std.specs.Prelude.{◌≡◌};

use service_keepers::KeepFault;
use thiserror::Error;

/// Why a file isn't imported.
#[derive(Clone, Copy, Debug, PartialEq, Eq, Error)]
pub enum ImportRefusal {
    /// The first row that is refused, the header being row 0, and why, by the least number that applies.
    #[error("row {row} is refused by {why}")]
    Row { row: u64, why: u8 },
    /// A call of the keeper failed.
    #[error("the keeper failed")]
    KeeperFault,
    /// A growth was refused.
    #[error("out of memory")]
    NoMemory,
}

impl From<KeepFault> for ImportRefusal {
    ghost use Rattle.register_import.specs.Answers.{fault_as_refusal};

    ghost from_gives = { λ fault refusal. refusal ≡ fault_as_refusal fault };

    fn from(fault: KeepFault) -> ImportRefusal {
        match fault {
            KeepFault::Failed => ImportRefusal::KeeperFault,
            KeepFault::NoMemory => ImportRefusal::NoMemory,
        }
    }
}
