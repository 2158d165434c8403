//! Records as they are read.

ghost use Rattle.site_types.specs.Valid.{IsValid};

use crate::changes::bytes_of;
use crate::told::{printed, say_line, say_refusal};
use anyhow::{Result, bail};
use record_lines::{Fed, Line, LineReader, Step};
use site_types::Site;
use std::alloc::Global;
use trial_cases::Lines;

// The sizes of pieces in which each record is read, besides whole.
const SIZES: [usize; 8] = [1, 2, 3, 5, 7, 511, 512, 513];

/// Each line of a record as it is printed, and the refusal where there is one, the same however the record is cut.
pub fn told_record(alloc: Global, site: &Site, record: &[u8]) -> Result<String>
    requires { IsValid site.now }
{
    let whole = read_in_pieces(alloc, site, record, record.len())?;
    for size in SIZES {
        let told = read_in_pieces(alloc, site, record, size)?;
        if told != whole {
            bail!("differs in pieces of {size}: {told}");
        }
    }
    Ok(whole)
}

fn read_in_pieces(alloc: Global, site: &Site, record: &[u8], size: usize) -> Result<String>
    requires { IsValid site.now }
{
    let mut lines = Lines::new(alloc);
    let mut reader = LineReader::new();
    for piece in record.chunks(size.max(1)) {
        if read_piece(alloc, site, &mut reader, piece, &mut lines)? {
            return lines.done();
        }
    }
    say_refusal(&mut lines, &reader.finish());
    lines.done()
}

// Reads a piece to its end. Says whether the record ended in it.
fn read_piece(
    alloc: Global,
    site: &Site,
    reader: &mut LineReader,
    piece: &[u8],
    lines: &mut Lines,
) -> Result<bool>
    requires { IsValid site.now }
{
    let mut rest = piece;
    for _ in 0..=piece.len() {
        let Fed { used, step } = reader.feed(site, rest);
        match step {
            Step::Need => return Ok(false),
            Step::Line(Line::End) => {
                lines.say("end");
                return Ok(true);
            }
            Step::Line(line) => {
                lines.say(&printed(alloc, site, &line)?);
                lines.say("\n");
            }
            Step::Refused(refusal) => {
                say_refusal(lines, &refusal);
                return Ok(true);
            }
        }
        rest = match rest.get(used..) {
            Some(rest) => rest,
            None => bail!("more than the piece was used"),
        };
    }
    bail!("a piece has no end")
}

/// What a line says behind `tick 1`, with places in place of names, or its refusal. A line that is read
/// is printed again as it was.
pub fn told_line(alloc: Global, site: &Site, text: &str) -> Result<String>
    requires { IsValid site.now }
{
    let bytes = bytes_of(alloc, text)?;
    let mut reader = LineReader::new();
    reader.feed(site, b"tick 1\n");
    reader.feed(site, &bytes);
    let read = reader.feed(site, b"\n").step;
    let again = told_behind_tick(alloc, site, &bytes)?;
    let mut lines = Lines::new(alloc);
    match read {
        Step::Line(_) if again.as_str() != text => bail!("{text} is printed as {again}"),
        Step::Line(line) => say_line(alloc, &mut lines, &line)?,
        _ => lines.say(&again),
    }
    lines.done()
}

// What the record whose second line this is has for it, however it is cut.
fn told_behind_tick(alloc: Global, site: &Site, line: &[u8]) -> Result<String>
    requires { IsValid site.now }
{
    let mut record = Vec::new(alloc);
    record.extend_from_slice(b"tick 1\n")?;
    record.extend_from_slice(line)?;
    record.extend_from_slice(b"\nend\n")?;
    let told = told_record(alloc, site, &record)?;
    let (_, told) = told.split_once('\n').unwrap_or(("", ""));
    let (told, _) = told.split_once('\n').unwrap_or((told, ""));
    Ok(String::from_str(alloc, told)?)
}

/// The answer to each piece of a record, with how many of its bytes were used.
pub fn told_pieces(alloc: Global, site: &Site, pieces: &str) -> Result<String>
    requires { IsValid site.now }
{
    let mut lines = Lines::new(alloc);
    let mut reader = LineReader::new();
    for piece in pieces.split('|') {
        let piece = bytes_of(alloc, piece.trim())?;
        let Fed { used, step } = reader.feed(site, &piece);
        lines.number(used as u64);
        lines.say(" used, ");
        match step {
            Step::Need => lines.say("more is needed"),
            Step::Line(line) => say_line(alloc, &mut lines, &line)?,
            Step::Refused(refusal) => say_refusal(&mut lines, &refusal),
        }
        lines.say("\n");
    }
    lines.done()
}
