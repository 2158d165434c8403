/// Why a tick block is refused.
#[derive(Clone, Copy, Debug, PartialEq, Eq)]
pub struct BlockRefusal {
    /// The number of the line, from 1.
    pub line: u64,
    /// The number of the refusal, 1 to 8, as a record's line has it.
    pub number: u8,
}
