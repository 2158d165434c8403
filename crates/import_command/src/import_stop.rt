use named_files::FileStop;
use register_import::ImportRefusal;

/// Why a file isn't imported, or not whole.
#[derive(Clone, Copy, Debug, PartialEq, Eq)]
pub enum ImportStop {
    /// The file isn't at hand.
    Missing(FileStop),
    /// A row is refused, the keeper failed, or memory ran out.
    Refused(ImportRefusal),
}
