//! The line that a refusal of a record is told by.

ghost use Rattle.std.specs.Prelude.{◌≡◌, ◌≤◌, ◌++◌, codes, decimal, length};
ghost use Rattle.refused_lines.specs.Refusals.{refusal_text, refused_text};

use arrayvec::ArrayString;
use itoa::Buffer;
use record_lines::{Refusal, Why};

/// The line of a refusal: the record's line, counted from 1, the number of the reason, and what belongs to it.
pub fn refusal_line(refusal: Refusal) -> ArrayString<128>
    ensures { result.bytes ≡ refusal_text refusal }
{
    let line = refusal.line;
    match refusal.why {
        Why::BadWord => refused_line(line, " 1"),
        Why::BadNumber => refused_line(line, " 2"),
        Why::NoSuch => refused_line(line, " 3"),
        Why::BadTick { expected, found } => bad_tick_line(line, expected, found),
        Why::BadOrder { place } => bad_order_line(line, place),
        Why::LineTooLong => refused_line(line, " 6"),
        Why::NotAscii => refused_line(line, " 7"),
        Why::BeforeFirstTick => refused_line(line, " 8"),
        Why::Truncated => refused_line(line, " 9"),
        Why::TickLimit => limit_line(),
    }
}

fn limit_line() -> ArrayString<128>
    ensures { result.bytes ≡ codes "limit ticks\n" }
{
    let mut line = ArrayString::new();
    line.push_str("limit ticks\n");
    line
}

// A refused line, with what is told of it.
fn refused_line(number: u64, detail: &str) -> ArrayString<128>
    requires { length detail.now ≤ 80 }
    ensures { result.bytes ≡ refused_text number detail.now }
{
    let mut digits = Buffer::new();
    let mut line = ArrayString::new();
    line.push_str("refused line ");
    line.push_str(digits.format(number));
    line.push_str(detail);
    line.push_str("\n");
    line
}

fn bad_tick_line(line: u64, expected: u64, found: u64) -> ArrayString<128>
    ensures { result.bytes ≡ refused_text line (codes " 4 expected " ++ decimal expected
        ++ codes " found " ++ decimal found) }
{
    let detail = tick_detail(expected, found);
    refused_line(line, detail.as_str())
}

fn tick_detail(expected: u64, found: u64) -> ArrayString<80>
    ensures text { result.bytes ≡ codes " 4 expected " ++ decimal expected ++ codes " found "
        ++ decimal found }
    ensures short { length result.bytes ≤ 80 }
{
    let mut digits = Buffer::new();
    let mut detail = ArrayString::new();
    detail.push_str(" 4 expected ");
    detail.push_str(digits.format(expected));
    detail.push_str(" found ");
    detail.push_str(digits.format(found));
    detail
}

fn bad_order_line(line: u64, place: usize) -> ArrayString<128>
    ensures { result.bytes ≡ refused_text line (codes " 5 " ++ decimal place) }
{
    let detail = order_detail(place);
    refused_line(line, detail.as_str())
}

fn order_detail(place: usize) -> ArrayString<80>
    ensures text { result.bytes ≡ codes " 5 " ++ decimal place }
    ensures short { length result.bytes ≤ 80 }
{
    let mut digits = Buffer::new();
    let mut detail = ArrayString::new();
    detail.push_str(" 5 ");
    detail.push_str(digits.format(place));
    detail
}
