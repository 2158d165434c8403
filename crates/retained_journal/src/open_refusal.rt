ghost use Rattle.std.specs.Prelude.{◌≡◌};
ghost use Rattle.retained_journal.specs.declared.open_refusal.OpenRefusal.TheVariants.{DiskFault};

use panel_edges::Failed;
use thiserror::Error;

/// Why a journal isn't opened.
#[derive(Clone, Copy, Debug, PartialEq, Eq, Error)]
pub enum OpenRefusal {
    /// The file begins with these bytes, zeros for absent ones, and not with `FPANEL01`.
    #[error("not a journal")]
    NotAJournal([u8; 8]),
    /// The journal was made for the site of another digest.
    #[error("the journal of another site")]
    OtherSite { kept: [u8; 32], given: [u8; 32] },
    /// A byte is out of its form, or the file ends here.
    #[error("damaged at byte {offset}")]
    Damaged { offset: u64, byte: u8 },
    /// A call of the disk failed.
    #[error("the disk failed")]
    DiskFault,
}

impl From<Failed> for OpenRefusal {
    ghost from_gives = { λ _ e. e ≡ DiskFault };

    fn from(_failed: Failed) -> OpenRefusal {
        OpenRefusal::DiskFault
    }
}
