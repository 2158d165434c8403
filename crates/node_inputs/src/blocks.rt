//! Tick blocks of a panel by itself.

ghost use Rattle.std.specs.Prelude.{◌≡◌, ◌≤◌, length};
ghost use Rattle.desk_ticks.specs.Blocks.{most_block_bytes};
ghost use Rattle.node_inputs.specs.OwnBlocks.{own_number_of, own_refusal_behind as own_refusal_of, own_stop_by};
ghost use Rattle.node_inputs.specs.OwnBlocks.{own_verdict_of};
ghost use Rattle.site_types.specs.Valid.{IsValid};

use crate::own::is_own_event;
use desk_ticks::{BlockRefusal, named_tick, reader_behind_tick};
use record_lines::{Line, LineReader, Step, Why};
use site_types::Site;

/// The tick that a block begins, where all its lines are accepted and the panel's own, whatever the number of that
/// tick; or the first line that is refused.
pub fn own_tick_of_block(site: &Site, panel: u8, block: &[u8]) -> Result<u64, BlockRefusal>
    requires valid { IsValid site.now }
    requires room { length block.now ≤ most_block_bytes }
    ensures { result ≡ own_verdict_of site.now panel block.now }
{
    let fed = LineReader::new().feed(site, block);
    match named_tick(&fed.step) {
        Err(number) => Err(BlockRefusal { line: 1, number }),
        Ok(tick) => match own_refusal_behind(site, panel, block.split_at(fed.used).1) {
            Some(refusal) => Err(refusal),
            None => Ok(tick),
        },
    }
}

// The refusal of the lines behind the first, if one of them is refused. They are read as behind the first tick.
fn own_refusal_behind(site: &Site, panel: u8, rest: &[u8]) -> Option<BlockRefusal>
    requires valid { IsValid site.now }
    requires room { length rest.now ≤ most_block_bytes }
    ensures { result ≡ own_refusal_of site.now panel rest.now }
{
    let mut reader = reader_behind_tick(site);
    let mut left = rest;
    let mut number = 2;
    while !left.is_empty() {
        let fed = reader.feed(site, left);
        match own_stop_at(site, panel, &fed.step, number) {
            Some(refusal) => return Some(refusal),
            None => {
                left = left.split_at(fed.used).1;
                number += 1;
            }
        }
    }
    None
}

// The refusal of a block at the line of this number, where the answer to the bytes that are left of it is one.
fn own_stop_at(site: &Site, panel: u8, step: &Step, number: u64) -> Option<BlockRefusal>
    ensures { result ≡ own_stop_by site.now panel step.now number }
{
    match step {
        Step::Line(Line::Event(event)) => {
            if is_own_event(site, panel, event) {
                None
            } else {
                Some(BlockRefusal {
                    line: number,
                    number: 3,
                })
            }
        }
        Step::Line(Line::Order(_)) => Some(BlockRefusal {
            line: number,
            number: 3,
        }),
        Step::Line(Line::Tick(_)) | Step::Line(Line::End) | Step::Need => Some(BlockRefusal {
            line: number,
            number: 1,
        }),
        Step::Refused(refusal) => Some(BlockRefusal {
            line: refusal.line,
            number: own_number(refusal.why),
        }),
    }
}

// The number of the refusal of a line behind the first, where an order is refused whatever its seats.
fn own_number(why: Why) -> u8
    ensures { result ≡ own_number_of why }
{
    match why {
        Why::BadWord => 1,
        Why::BadNumber => 2,
        Why::NoSuch => 3,
        Why::BadTick { .. } => 1,
        Why::BadOrder { .. } => 3,
        Why::LineTooLong => 6,
        Why::NotAscii => 7,
        Why::BeforeFirstTick => 8,
        Why::Truncated => 9,
        Why::TickLimit => 1,
    }
}
