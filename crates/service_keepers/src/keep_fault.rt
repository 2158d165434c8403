/// Why a keeper didn't do what it was asked.
#[derive(Clone, Copy, Debug, PartialEq, Eq)]
pub enum KeepFault {
    /// The outside failed, and the keeper's count of faults rose.
    Failed,
    /// A growth was refused.
    NoMemory,
}
