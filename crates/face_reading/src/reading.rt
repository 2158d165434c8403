//! Reading a text back, line by line.

ghost use Rattle.std.specs.Prelude.{◌+◌, ◌<◌, ◌^◌, length, IfErr, IfOk};
ghost use Rattle.site_types.specs.Valid.{IsValid};
ghost use Rattle.face_reading.specs.Reading.{IsRead, IsRefusal};
ghost use Rattle.face_reading.specs.ReadSoFar.{IsEndOf};

use crate::entry::Entry;
use crate::entry_reading::{is_opening, read_entry};
use crate::guesses::Guesses;
use crate::lines::split_line;
use crate::text_refusal::TextRefusal;
use crate::told::ToldSoFar;
use face_text::Timeline;
use site_types::Site;
use std::alloc::Global;
use tick_units::Tick;

/// The timeline whose text this is. Each line is looked at once, by what the lines before it told; a step
/// takes memory for its faces, and a table of where the site's things stand some 30 KB.
///
/// # Errors
///
/// `BadLine` exactly where the text is that of no timeline in form, with the first line that no such text has
/// there. A last line without its end counts as the bad one; where the text only ends too early, that is the
/// line behind it. `NoMemory` where memory was refused.
pub fn read_faces(alloc: Global, site: &Site, text: &[u8]) -> Result<Timeline, TextRefusal>
    requires { IsValid site.now }
    ensures ok { IfOk result (λ timeline. IsRead site.now text.now timeline) }
    ensures bad { IfErr result (IsRefusal site.now text.now) }
{
    let Some((line, mut rest)) = split_line(text) else {
        return Err(TextRefusal::BadLine(1));
    };
    if !is_opening(site, line) {
        return Err(TextRefusal::BadLine(1));
    }
    let guesses = Guesses::of(alloc, site)?;
    let mut told = ToldSoFar::nothing(alloc, site)?;
    let mut count = 1;
    while let Some((line, behind)) = split_line(rest) {
        count += 1;
        let Some(entry) = read_entry(site, &guesses, line) else {
            return Err(TextRefusal::BadLine(count));
        };
        if let Entry::End(last) = entry {
            return end_with(alloc, told, last, behind, count);
        }
        if !told.take(alloc, entry)? {
            return Err(TextRefusal::BadLine(count));
        }
        rest = behind;
    }
    Err(TextRefusal::BadLine(count + 1))
}

// What is read where the last line names a tick, with what is behind that line and its number.
fn end_with(
    alloc: Global,
    told: ToldSoFar,
    last: Tick,
    behind: &[u8],
    number: u64,
) -> Result<Timeline, TextRefusal>
    requires { number + length behind.now < 2 ^ 64 }
    ensures { IsEndOf told last behind.now number result }
{
    match told.finish(alloc, last)? {
        None => Err(TextRefusal::BadLine(number)),
        Some(timeline) => {
            if behind.is_empty() {
                Ok(timeline)
            } else {
                Err(TextRefusal::BadLine(number + 1))
            }
        }
    }
}
