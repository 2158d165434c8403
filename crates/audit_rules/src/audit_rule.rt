/// A rule that a text keeps or breaks, in the order in which the rules of a tick are judged.
#[derive(Clone, Copy, Debug, PartialEq, Eq)]
pub enum AuditRule {
    /// The text ends with another tick than the record.
    Length,
    /// A number is answered that no operation has by then, or a second time, or `done` against its level.
    Answer,
    /// A zone is due at a panel that doesn't show it.
    Indication,
    /// An output is due to be on and isn't.
    Output,
    /// A zone is shown that can have no cause.
    Zone,
    /// An output is on that can have no cause.
    Cause,
}
