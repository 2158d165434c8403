/// Whether a shelf has a file of a name.
#[derive(Clone, Copy, Debug, PartialEq, Eq)]
pub enum Found {
    /// It has, and its bytes were handed out.
    Here,
    /// It has none.
    Absent,
}

/// Why a file wasn't handed out, though there may be one.
#[derive(Clone, Copy, Debug, PartialEq, Eq)]
pub enum FetchFault {
    /// The outside failed, and the shelf's count of faults rose.
    Failed,
    /// The file has more than `MOST_FILE_BYTES` bytes.
    TooLong,
    /// A growth was refused.
    NoMemory,
}
