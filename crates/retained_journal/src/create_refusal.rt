ghost use Rattle.std.specs.Prelude.{◌≡◌};
ghost use Rattle.retained_journal.specs.declared.create_refusal.CreateRefusal.TheVariants.{DiskFault};

use panel_edges::Failed;
use thiserror::Error;

/// Why a journal isn't created.
#[derive(Clone, Copy, Debug, PartialEq, Eq, Error)]
pub enum CreateRefusal {
    /// The file has so many bytes already.
    #[error("the file has {length} bytes already")]
    NotEmpty { length: u64 },
    /// A call of the disk failed.
    #[error("the disk failed")]
    DiskFault,
}

impl From<Failed> for CreateRefusal {
    ghost from_gives = { λ _ e. e ≡ DiskFault };

    fn from(_failed: Failed) -> CreateRefusal {
        CreateRefusal::DiskFault
    }
}
