ghost use Rattle.std.specs.Prelude.{◌≡◌, ◌<◌, IfOk, Some, [], slice_get, true};
ghost use Rattle.answer_lanes.specs.Runs.{HasShortCount};
ghost use Rattle.panel_conditions.specs.Told.{TellMissing};
ghost use Rattle.panel_conditions.specs.Told.{AreTold, AreToldInBlock, AreToldInEight, HaveEights, MarksTold};

use crate::next_bit::next_bit;
use answer_lanes::{BlockSet, FindingBlock, FindingGroup, Run, joined};
use site_types::has_bit_8;
use std::alloc::Global;
use std::marker::Model;
use tick_units::NoMemory;

/// Whether the last finding of each point of the site told it missing, by the point's place: a bit for each, so that
/// those of a group are compared at once. Contracts see it as a list.
#[derive(Drop)]
pub struct ToldMissing {
    missing: BlockSet,
    /// How many points there are. Those past the last place that has a number don't count.
    count: usize,
}

impl Model for ToldMissing {
    ghost use Rattle.std.specs.Prelude.{◌≤◌, ◌<◌, ◌+◌, ◌*◌, Bool, List, length};
    ghost use Rattle.panel_conditions.specs.Told.{TellMissing};
    ghost use Rattle.panel_conditions.specs.Told.{are_places};

    ghost Value = { List Bool };

    ghost view = { λ t. are_places t.missing t.count };

    ghost invariant = { λ t. (t.count ≤ 65536) × (t.count + 8 < 8 * length t.missing.bytes.items) };
}

impl ToldMissing {
    /// Nothing was told of any of so many points. Those of these blocks are kept in one word each.
    pub fn none(alloc: Global, count: usize, blocks: &[[u16; 4]]) -> Result<ToldMissing, NoMemory>
        ensures { IfOk result (λ told. TellMissing [] told) }
    {
        let missing = BlockSet::first(alloc, count, false, blocks)?;
        Ok(ToldMissing {
            missing,
            count: count.min(65_536),
        })
    }

    /// Whether the last finding of a point told it missing, or not, as this one does.
    pub fn has(&self, place: usize, missing: bool) -> bool
        ensures { result ≡ true → slice_get self.now place ≡ Some missing }
    {
        place < self.count && has_bit_8(self.missing.eight_within(place), 0) == missing
    }

    /// Whether the last finding of each point of a run told it missing, or not, as the run does.
    pub fn has_run(&self, run: &Run<FindingGroup>) -> bool
        requires { HasShortCount run.now }
        ensures { result ≡ true → AreTold self.now run.now }
    {
        let first = run.first.point as usize;
        let end = run.taken + run.count;
        if end > 8 || first + end as usize > self.count {
            return false;
        }
        let others = self.missing.eight_within(first) ^ run.first.missing;
        others == 0 || next_bit(others as u32, run.taken) >= end
    }

    /// Whether the last finding of each point of one of a block's eights told it missing, or not, as the block does.
    pub fn has_eight(&self, block: &FindingBlock, number: u8) -> bool
        requires { number < 4 }
        ensures { result ≡ true → AreToldInEight self.now block.now number }
    {
        let first = block.firsts[number as usize] as usize;
        first + 8 <= self.count
            && self.missing.eight_within(first) == block.missing[number as usize]
    }

    /// Whether the last finding of each point of a block told it missing, or not, as the block does.
    pub fn has_block(&self, block: &FindingBlock) -> bool
        ensures { result ≡ true → AreToldInBlock self.now block.now }
    {
        if !are_within(&block.firsts, self.count) {
            return false;
        }
        self.missing.eights_from(&block.firsts) == joined(&block.missing)
    }

    /// Marks what the finding of a point told.
    pub fn mark(&mut self, place: usize, missing: bool)
        ensures { MarksTold place missing self.old self.new }
    {
        if place < self.count {
            self.missing.set(place, missing);
        }
    }
}

// Whether of so many places there are eight from each of four on.
fn are_within(firsts: &[u16; 4], count: usize) -> bool
    ensures { result ≡ true → HaveEights count firsts.now }
{
    for first in firsts {
        if *first as usize + 8 > count {
            return false;
        }
    }
    true
}
