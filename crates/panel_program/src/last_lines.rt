//! The last line of a run.

ghost use Rattle.std.specs.Prelude.{◌≡◌, ◌≤◌, ◌++◌, codes, decimal, length};
ghost use Rattle.panel_program.specs.Endings.{last_line as last_text};

use crate::run_end::RunEnd;
use arrayvec::ArrayString;
use itoa::Buffer;
use refused_lines::refusal_line;

/// The last line of a run with this end, after so many ticks.
pub fn last_line(end: RunEnd, ticks: u64) -> ArrayString<128>
    ensures { result.bytes ≡ last_text ticks end }
{
    match end {
        RunEnd::Ended => end_line(ticks),
        RunEnd::Refused(refusal) => refusal_line(refusal),
        RunEnd::TooManyBytes => fixed_line("limit bytes\n"),
        RunEnd::ReadFault => fixed_line("fault read\n"),
    }
}

fn end_line(ticks: u64) -> ArrayString<128>
    ensures { result.bytes ≡ codes "end " ++ decimal ticks ++ codes "\n" }
{
    let mut digits = Buffer::new();
    let mut line = ArrayString::new();
    line.push_str("end ");
    line.push_str(digits.format(ticks));
    line.push_str("\n");
    line
}

fn fixed_line(text: &str) -> ArrayString<128>
    requires { length text.now ≤ 16 }
    ensures { result.bytes ≡ text.now }
{
    let mut line = ArrayString::new();
    line.push_str(text);
    line
}
