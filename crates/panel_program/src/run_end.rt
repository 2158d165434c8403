ghost use Rattle.std.specs.Prelude.{◌≡◌};
ghost use Rattle.panel_program.specs.Endings.{status_by as status_told_by, status_of as status_of_end};

use program_status::Status;
use record_lines::{Refusal, Why};

/// How the reading of a record came to its end.
#[derive(Clone, Copy)]
pub enum RunEnd {
    /// At its line `end`.
    Ended,
    /// At a line that is refused, or where the input ended without the line `end`.
    Refused(Refusal),
    /// When so many bytes had been read as a record may have.
    TooManyBytes,
    /// At a read that failed.
    ReadFault,
}

/// The status of a run with this end.
pub fn status_of(end: RunEnd) -> Status
    ensures { result ≡ status_of_end end }
{
    match end {
        RunEnd::Ended => Status::Done,
        RunEnd::Refused(refusal) => status_by(refusal.why),
        RunEnd::TooManyBytes => Status::Limit,
        RunEnd::ReadFault => Status::ReadFault,
    }
}

fn status_by(why: Why) -> Status
    ensures { result ≡ status_told_by why }
{
    match why {
        Why::TickLimit => Status::Limit,
        Why::BadWord
        | Why::BadNumber
        | Why::NoSuch
        | Why::BadTick { .. }
        | Why::BadOrder { .. }
        | Why::LineTooLong
        | Why::NotAscii
        | Why::BeforeFirstTick
        | Why::Truncated => Status::BadRecord,
    }
}
