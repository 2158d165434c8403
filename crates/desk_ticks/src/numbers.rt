//! The numbers of refusals.

ghost use Rattle.std.specs.Prelude.{◌≡◌};
ghost use Rattle.desk_ticks.specs.Numbers.{number_behind as behind, refusal_number as of};

use record_lines::Why;

/// The number of a refusal.
pub fn refusal_number(why: Why) -> u8
    ensures { result ≡ of why }
{
    match why {
        Why::BadWord => 1,
        Why::BadNumber => 2,
        Why::NoSuch => 3,
        Why::BadTick { .. } => 4,
        Why::BadOrder { .. } => 5,
        Why::LineTooLong => 6,
        Why::NotAscii => 7,
        Why::BeforeFirstTick => 8,
        Why::Truncated => 9,
        Why::TickLimit => 10,
    }
}

/// The number of the refusal of a line behind the first, where another tick is a word out of place.
pub fn number_behind(why: Why) -> u8
    ensures { result ≡ behind why }
{
    match why {
        Why::BadTick { .. } | Why::TickLimit => 1,
        Why::BadWord
        | Why::BadNumber
        | Why::NoSuch
        | Why::BadOrder { .. }
        | Why::LineTooLong
        | Why::NotAscii
        | Why::BeforeFirstTick
        | Why::Truncated => refusal_number(why),
    }
}
