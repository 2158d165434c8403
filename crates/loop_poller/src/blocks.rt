ghost use Rattle.std.specs.Prelude.{◌≡◌, ◌+◌, All, IfOk, IfSome};
ghost use Rattle.std.specs.List.{flat_map};
ghost use Rattle.tick_units.specs.Lane.{HasRoom, with_put};
ghost use Rattle.loop_poller.specs.Blocks.{AreBlocks, HaveGroups, IsWholeWithin};
ghost use Rattle.loop_poller.specs.Groups.{group_answers};

use crate::group::Group;
use crate::point_states::PointStates;
use crate::polled_line::PolledLine;
use answer_lanes::{AnswerBlock, Lane, Run, parted};
use std::alloc::{AllocError, Global};
use tick_units::Tick;

/// The groups of four loops at the same eight addresses, by number. There is none where a loop has no group of eight.
pub(crate) fn blocks_of(
    alloc: Global,
    lines: &[PolledLine; 4],
    count: usize,
) -> Result<Vec<Option<[Group; 4]>>, AllocError>
    ensures { IfOk result (λ blocks. AreBlocks lines.now blocks.items) }
{
    let mut blocks = vec![in alloc; None; count]?;
    for number in 0..count {
        blocks[number] = block_from(lines, number);
    }
    Ok(blocks)
}

fn block_from(lines: &[PolledLine; 4], number: usize) -> Option<[Group; 4]>
    ensures { IfSome result (λ groups. HaveGroups lines.now number groups) }
{
    let [a, b, c, d] = lines;
    Some([
        a.whole_group(number)?,
        b.whole_group(number)?,
        c.whole_group(number)?,
        d.whole_group(number)?,
    ])
}

/// Puts the answers of the points of four groups, all reached, where the points of the site are in these states.
pub(crate) fn put_block(
    groups: &[Group; 4],
    states: &PointStates,
    now: Tick,
    answers: &mut Lane<AnswerBlock>,
)
    requires room { HasRoom answers.old 32 }
    requires within { All (λ group. IsWholeWithin group states.now) groups.now }
    ensures count { answers.new.put ≡ answers.old.put + 32 }
    ensures put { answers.new ≡ with_put answers.old
        (flat_map (λ group. group_answers now.0 group states.now) groups.now) }
{
    let [a, b, c, d] = groups;
    let firsts = [a.first, b.first, c.first, d.first];
    let first = AnswerBlock {
        stamp: now,
        firsts,
        alarms: parted(states.alarms_in(&firsts)),
        silents: parted(states.gone_in(&firsts)),
    };
    answers.put_run(Run {
        first,
        taken: 0,
        count: 32,
    });
}
