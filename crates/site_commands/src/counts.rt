//! The line of an accepted site.

ghost use Rattle.std.specs.Prelude.{◌≡◌, ◌+◌, ◌≤◌, ◌++◌, decimal, length};
ghost use Rattle.site_commands.specs.Counts.{counts_line as counts_text};

use arrayvec::ArrayString;
use itoa::Buffer;
use site_types::Site;

/// The counts of an accepted site.
pub fn counts_line(site: &Site) -> ArrayString<192>
    ensures { result.bytes ≡ counts_text site.now }
{
    let mut line = ArrayString::new();
    push_count(&mut line, "ok panels ", site.panels as usize);
    push_count(&mut line, " points ", site.points.len());
    push_count(&mut line, " zones ", site.zones.len());
    push_count(&mut line, " outputs ", site.outputs.len());
    push_count(&mut line, " markers ", site.markers.len());
    line.push_str("\n");
    line
}

// A word and a number behind it.
fn push_count(line: &mut ArrayString<192>, word: &str, count: usize)
    requires { length line.old.bytes + length word.now + 20 ≤ 192 }
    ensures text { line.new.bytes ≡ line.old.bytes ++ word.now ++ decimal count }
    ensures room { length line.new.bytes ≤ length line.old.bytes + length word.now + 20 }
{
    let mut number = Buffer::new();
    line.push_str(word);
    line.push_str(number.format(count));
}
