//! The lines of a text behind the first, each by what it tells, and the first.

ghost use Rattle.std.specs.Prelude.{◌≡◌, ◌≤◌, ◌++◌, codes, decimal, length};
ghost use Rattle.site_types.specs.Valid.{IsValid};
ghost use Rattle.face_text.specs.Slots.{line_of};
ghost use Rattle.face_text.specs.Timelines.{opening_line as line_of_opening};
ghost use Rattle.face_reading.specs.Entries.{entry_line as line_of_entry, slot_of, value_of};

use crate::change::Change;
use crate::entry::Entry;
use crate::guesses::Guesses;
use crate::known_names::known_name;
use arrayvec::ArrayString;
use face_text::{answer_line, buzzer_line, counted_line, counter_line, delays_line, named_line};
use itoa::Buffer;
use site_types::Site;

/// The line of an entry, with its end. It is no line where the site hasn't the thing that it tells of.
pub fn entry_line(site: &Site, guesses: &Guesses, entry: &Entry) -> ArrayString<64>
    requires { IsValid site.now }
    ensures text { result.bytes ≡ line_of_entry site.now entry.now }
    ensures short { length result.bytes ≤ 64 }
{
    match *entry {
        Entry::Change { panel, change } => change_line(site, guesses, panel, change),
        Entry::Answer(answer) => answer_line(&answer),
        Entry::Busy { panel, count } => counted_line(panel, count),
        Entry::StoreFailed => failed_line(),
        Entry::Tick(tick) => number_line("tick ", tick.0),
        Entry::End(tick) => number_line("end ", tick.0),
    }
}

/// The first line of a text, with its end.
pub fn opening_line(site: &Site) -> ArrayString<64>
    requires { length site.now.name.bytes ≤ 16 }
    ensures { result.bytes ≡ line_of_opening site.now }
{
    let mut digits = Buffer::new();
    let mut line = ArrayString::new();
    line.push_str("site ");
    line.push_str(site.name.as_str());
    line.push_str(" panels ");
    line.push_str(digits.format(site.panels));
    line.push_str("\n");
    line
}

fn change_line(site: &Site, guesses: &Guesses, panel: u8, change: Change) -> ArrayString<64>
    requires { IsValid site.now }
    ensures text { result.bytes ≡ line_of site.now panel (slot_of change) (value_of change) }
    ensures short { length result.bytes ≤ 64 }
{
    match change {
        Change::Thing { group, number, on } => {
            let name = known_name(site, guesses, panel, group, number);
            named_line(panel, group, &name, on)
        }
        Change::Delays(on) => delays_line(panel, on),
        Change::Buzzer(buzzer) => buzzer_line(panel, buzzer),
        Change::Counter(counter) => counter_line(panel, counter),
    }
}

fn failed_line() -> ArrayString<64>
    ensures text { result.bytes ≡ codes "store failed\n" }
    ensures short { length result.bytes ≤ 64 }
{
    let mut line = ArrayString::new();
    line.push_str("store failed\n");
    line
}

fn number_line(word: &str, number: u64) -> ArrayString<64>
    requires { length word.now ≤ 16 }
    ensures text { result.bytes ≡ word.now ++ decimal number ++ codes "\n" }
    ensures short { length result.bytes ≤ 64 }
{
    let mut digits = Buffer::new();
    let mut line = ArrayString::new();
    line.push_str(word);
    line.push_str(digits.format(number));
    line.push_str("\n");
    line
}
