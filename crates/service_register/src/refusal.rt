ghost use Rattle.std.specs.Prelude.{◌≡◌};

use service_keepers::{KeepFault, Visit};
use thiserror::Error;

/// Why the register refuses a call.
#[derive(Clone, Copy, Debug, PartialEq, Eq, Error)]
pub enum RegisterRefusal {
    /// The site has no point of this name.
    #[error("no such point")]
    NoSuchPoint,
    /// Another visit has the number: this one.
    #[error("another visit has the number")]
    Differs(Visit),
    /// No visit has the number.
    #[error("no such visit")]
    NoSuchVisit,
    /// A call of the keeper failed.
    #[error("the keeper failed")]
    KeeperFault,
    /// A growth was refused.
    #[error("out of memory")]
    NoMemory,
}

impl From<KeepFault> for RegisterRefusal {
    ghost use Rattle.service_register.specs.Answers.{refusal_by};

    ghost from_gives = { λ fault refusal. refusal ≡ refusal_by fault };

    fn from(fault: KeepFault) -> RegisterRefusal {
        match fault {
            KeepFault::Failed => RegisterRefusal::KeeperFault,
            KeepFault::NoMemory => RegisterRefusal::NoMemory,
        }
    }
}
