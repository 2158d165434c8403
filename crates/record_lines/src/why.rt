/// Why a line is refused.
#[derive(Clone, Copy, Debug, PartialEq, Eq)]
pub enum Why {
    /// No kind of line has this first word, so many fields and these fixed words; or a code or a seat's
    /// letter isn't of its form.
    BadWord,
    /// A number isn't of the record's form.
    BadNumber,
    /// A name or a number names nothing of its kind in the site, or not of the panel.
    NoSuch,
    /// Another tick has its turn.
    BadTick { expected: u64, found: u64 },
    /// The list of seats isn't an order. `place` is that of the strange or repeated seat, from 1; for a
    /// missing seat the number of seats plus 1; for a second order in a tick 0.
    BadOrder { place: usize },
    /// 512 bytes came without a line end, and the next one isn't one.
    LineTooLong,
    /// A byte is no printable character of ASCII.
    NotAscii,
    /// No tick has begun yet.
    BeforeFirstTick,
    /// The record ends without its last line.
    Truncated,
    /// No tick follows the last that a run may have.
    TickLimit,
}
