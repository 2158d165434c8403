//! Checking a block whole.

ghost use Rattle.std.specs.Prelude.{◌≡◌, ◌≤◌, [], length};
ghost use Rattle.desk_ticks.specs.Blocks.{behind_line, first_line, most_block_bytes};
ghost use Rattle.desk_ticks.specs.Blocks.{refusal_behind as refusal_of, tick_one, verdict_of};
ghost use Rattle.record_lines.specs.Lines.{accepted, at_start, reading_of};
ghost use Rattle.record_lines.specs.Stands.{StandsFor};
ghost use Rattle.site_types.specs.Valid.{IsValid};

use crate::block_refusal::BlockRefusal;
use crate::stops::{named_tick, stop_at};
use arrayvec::ArrayVec;
use record_lines::{Line, LineReader, print_line};
use site_types::Site;
use tick_units::Tick;

/// The most bytes that a block may have.
pub const MOST_BLOCK_BYTES: usize = 65_536;

/// The tick that a block begins, where all its lines are accepted, whatever the number of that tick; or the first line
/// that is refused. A second tick, the line `end` and bytes without a line end are no lines of a block.
pub fn tick_of_block(site: &Site, block: &[u8]) -> Result<u64, BlockRefusal>
    requires valid { IsValid site.now }
    requires room { length block.now ≤ most_block_bytes }
    ensures { result ≡ verdict_of site.now block.now }
{
    let fed = LineReader::new().feed(site, block);
    match named_tick(&fed.step) {
        Err(number) => Err(BlockRefusal { line: 1, number }),
        Ok(tick) => match refusal_behind(site, block.split_at(fed.used).1) {
            Some(refusal) => Err(refusal),
            None => Ok(tick),
        },
    }
}

// The refusal of the lines behind the first, if one of them is refused. They are read as behind the first tick.
fn refusal_behind(site: &Site, rest: &[u8]) -> Option<BlockRefusal>
    requires valid { IsValid site.now }
    requires room { length rest.now ≤ most_block_bytes }
    ensures { result ≡ refusal_of site.now rest.now }
{
    let mut reader = reader_behind_tick(site);
    let mut left = rest;
    let mut number = 2;
    while !left.is_empty() {
        let fed = reader.feed(site, left);
        match stop_at(&fed.step, number) {
            Some(refusal) => return Some(refusal),
            None => {
                left = left.split_at(fed.used).1;
                number += 1;
            }
        }
    }
    None
}

/// A reader of the lines behind the first: it stands behind the line of the first tick.
pub fn reader_behind_tick(site: &Site) -> LineReader
    requires { IsValid site.now }
    ensures stands { StandsFor site.now (first_line site.now) result }
    ensures reads { reading_of site.now (first_line site.now) ≡ accepted at_start tick_one }
{
    let mut reader = LineReader::new();
    begin(site, &mut reader);
    reader
}

/// The lines of a block behind its first.
pub fn behind_first_line(block: &[u8]) -> &[u8]
    ensures { result.now ≡ behind_line block.now }
{
    for place in 0..block.len() {
        if block[place] == b'\n' {
            return block.split_at(place + 1).1;
        }
    }
    &[]
}

// Reads the line of the first tick.
fn begin(site: &Site, reader: &mut LineReader)
    requires valid { IsValid site.now }
    requires fresh { StandsFor site.now [] reader.old }
    ensures stands { StandsFor site.now (first_line site.now) reader.new }
    ensures reads { reading_of site.now (first_line site.now) ≡ accepted at_start tick_one }
{
    let mut text = ArrayVec::new();
    print_line(site, &Line::Tick(Tick(1)), &mut text);
    text.push(b'\n');
    reader.feed(site, text.as_slice());
}
