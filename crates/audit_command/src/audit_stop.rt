use named_files::FileStop;

/// Why there is no verdict.
#[derive(Clone, Copy, Debug, PartialEq, Eq)]
pub enum AuditStop {
    /// The record's file isn't at hand.
    NoRecord(FileStop),
    /// The text's file isn't at hand.
    NoText(FileStop),
    /// Memory ran out while the text was judged.
    NoMemory,
}
