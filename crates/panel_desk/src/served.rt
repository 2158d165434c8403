/// What came of a connection.
#[derive(Clone, Copy, Debug, PartialEq, Eq)]
pub enum Served {
    /// A request was answered with this status, a stop that was granted apart.
    Answered { status: u16 },
    /// A stop was granted and answered.
    Stopped,
    /// The input ended before it was known what to answer.
    Ended,
    /// A read failed before it was known what to answer.
    ReadFault,
    /// A write failed. What was asked for is done.
    WriteFault,
}
