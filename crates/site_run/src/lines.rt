//! Single lines of the text.

ghost use Rattle.std.specs.Prelude.{◌≡◌, ◌≤◌, length};
ghost use Rattle.face_text.specs.Timelines.{opening_line as line_of_opening, tick_line as tick_text};

use arrayvec::ArrayString;
use itoa::Buffer;
use site_types::Site;

/// The first line of a run.
pub fn opening_line(site: &Site) -> ArrayString<64>
    ensures text { result.bytes ≡ line_of_opening site.now }
    ensures short { length result.bytes ≤ 64 }
{
    let mut number = Buffer::new();
    let mut line = ArrayString::new();
    line.push_str("site ");
    line.push_str(site.name.as_str());
    line.push_str(" panels ");
    line.push_str(number.format(site.panels));
    line.push_str("\n");
    line
}

/// The line above what changed in a tick.
pub fn tick_line(tick: u64) -> ArrayString<64>
    ensures text { result.bytes ≡ tick_text tick }
    ensures short { length result.bytes ≤ 64 }
{
    let mut number = Buffer::new();
    let mut line = ArrayString::new();
    line.push_str("tick ");
    line.push_str(number.format(tick));
    line.push_str("\n");
    line
}
