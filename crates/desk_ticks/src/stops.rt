//! What a line makes of a block.

ghost use Rattle.std.specs.Prelude.{◌≡◌};
ghost use Rattle.desk_ticks.specs.Stops.{named_by, stop_by};

use crate::block_refusal::BlockRefusal;
use crate::numbers::{number_behind, refusal_number};
use record_lines::{Line, Step, Why};

/// The tick that the first line names, or the number of its refusal.
pub fn named_tick(step: &Step) -> Result<u64, u8>
    ensures { result ≡ named_by step.now }
{
    match step {
        Step::Line(Line::Tick(tick)) => Ok(tick.0),
        Step::Line(Line::Event(_)) | Step::Line(Line::Order(_)) | Step::Line(Line::End) => Err(1),
        Step::Refused(refusal) => match refusal.why {
            Why::BadTick { found, .. } => Ok(found),
            why => Err(refusal_number(why)),
        },
        Step::Need => Err(1),
    }
}

/// The refusal of a block at the line of this number, where the answer to the bytes that are left of it is one.
pub fn stop_at(step: &Step, number: u64) -> Option<BlockRefusal>
    ensures { result ≡ stop_by step.now number }
{
    match step {
        Step::Line(Line::Event(_)) | Step::Line(Line::Order(_)) => None,
        Step::Line(Line::Tick(_)) | Step::Line(Line::End) | Step::Need => Some(BlockRefusal {
            line: number,
            number: 1,
        }),
        Step::Refused(refusal) => Some(BlockRefusal {
            line: refusal.line,
            number: number_behind(refusal.why),
        }),
    }
}
