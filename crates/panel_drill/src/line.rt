//! The line of a drill.

ghost use Rattle.std.specs.Prelude.{◌≡◌, ◌+◌, ◌≤◌, ◌++◌, decimal, length};
ghost use Rattle.panel_drill.specs.Drills.{summary_line as line_text};

use crate::summary::Summary;
use arrayvec::ArrayString;
use itoa::Buffer;

pub(crate) fn summary_line(seed: u64, ticks: u64, summary: &Summary) -> ArrayString<192>
    ensures { result.bytes ≡ line_text seed ticks summary.now }
{
    let mut line = ArrayString::new();
    push_number(&mut line, "drill seed ", seed);
    push_number(&mut line, " ticks ", ticks);
    push_number(&mut line, " zones ", summary.zones as u64);
    push_number(&mut line, " outputs ", summary.outputs as u64);
    push_number(&mut line, " counter ", summary.counter);
    line.push_str("\n");
    line
}

// A word and a number behind it.
fn push_number(line: &mut ArrayString<192>, word: &str, number: u64)
    requires { length line.old.bytes + length word.now + 20 ≤ 192 }
    ensures text { line.new.bytes ≡ line.old.bytes ++ word.now ++ decimal number }
    ensures room { length line.new.bytes ≤ length line.old.bytes + length word.now + 20 }
{
    let mut digits = Buffer::new();
    line.push_str(word);
    line.push_str(digits.format(number));
}
