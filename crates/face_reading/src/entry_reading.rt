//! Reading a line alone.

ghost use Rattle.std.specs.Prelude.{◌≡◌, ◌↔◌, [], ◌∷◌, ◌++◌, IsTrue};
ghost use Rattle.site_types.specs.Valid.{IsValid};
ghost use Rattle.face_text.specs.Timelines.{opening_line as line_of_opening};
ghost use Rattle.face_reading.specs.EntryLines.{ReadsEntry};

use crate::candidates::candidate;
use crate::entry::Entry;
use crate::entry_forms::is_entry;
use crate::entry_lines::{entry_line, opening_line};
use crate::guesses::Guesses;
use line_fields::is_word;
use site_types::Site;

/// The entry whose line this is, without its end. A line may have any bytes and any length.
pub fn read_entry(site: &Site, guesses: &Guesses, line: &[u8]) -> Option<Entry>
    requires { IsValid site.now }
    ensures { ReadsEntry site.now line.now result }
{
    let entry = candidate(site, guesses, line)?;
    if is_entry(site, guesses, &entry)
        && is_ended(entry_line(site, guesses, &entry).as_str().as_bytes(), line)
    {
        Some(entry)
    } else {
        None
    }
}

/// Whether a line, without its end, is the first of a text.
pub fn is_opening(site: &Site, line: &[u8]) -> bool
    requires { IsValid site.now }
    ensures { IsTrue result ↔ (line_of_opening site.now ≡ line.now ++ 10 ∷ []) }
{
    is_ended(opening_line(site).as_str().as_bytes(), line)
}

// Whether bytes are a line with its end.
fn is_ended(bytes: &[u8], line: &[u8]) -> bool
    ensures { IsTrue result ↔ (bytes.now ≡ line.now ++ 10 ∷ []) }
{
    match bytes.strip_prefix(line) {
        Some(rest) => is_word(rest, b"\n"),
        None => false,
    }
}
