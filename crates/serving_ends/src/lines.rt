//! The last line of serving.

ghost use Rattle.std.specs.Prelude.{◌≡◌, ◌≤◌, length};
ghost use Rattle.serving_ends.specs.Ends.{served_line as served_text};

use arrayvec::ArrayString;
use itoa::Buffer;

/// How many connections were served.
pub fn served_line(count: u32) -> ArrayString<32>
    ensures text { result.bytes ≡ served_text count }
    ensures short { length result.bytes ≤ 32 }
{
    let mut number = Buffer::new();
    let mut line = ArrayString::new();
    line.push_str("served ");
    line.push_str(number.format(count));
    line.push_str("\n");
    line
}
