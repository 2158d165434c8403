ghost use Rattle.std.specs.Prelude.{IfOk, IfSome};

use crate::block_zones::BlockZones;
use site_types::{Point, Zone};
use std::alloc::Global;
use tick_units::NoMemory;

/// What alarms of the points of blocks tell of zones, found once for each block.
#[derive(Drop)]
pub struct KnownZones {
    /// By number.
    pub blocks: Vec<BlockZones>,
    /// By place, the number of the block whose first point stands there.
    pub numbers: Vec<u8>,
}

// The number of a place where no block begins.
const NONE_THERE: u8 = 255;

impl KnownZones {
    ghost use Rattle.coincidence.specs.ZoneMasks.{HaveZoneNumbers, HasBlock, TellZonesOf};

    /// Of these blocks, each by the first places of its eights, those whose eights stand in no more than two zones
    /// each.
    pub fn of_blocks(
        alloc: Global,
        points: &[Point],
        zones: &[Zone],
        blocks: &[[u16; 4]],
    ) -> Result<KnownZones, NoMemory>
        requires { HaveZoneNumbers zones.now }
        ensures { IfOk result (λ known. TellZonesOf points.now zones.now known.blocks.items) }
    {
        let mut known = KnownZones {
            blocks: Vec::with_capacity(alloc, blocks.len())?,
            numbers: vec![in alloc; NONE_THERE; points.len()]?,
        };
        for firsts in blocks {
            known.know(points, zones, firsts)?;
        }
        Ok(known)
    }

    // Keeps what is told of one more block, if its eights stand in no more than two zones each.
    fn know(&mut self, points: &[Point], zones: &[Zone], firsts: &[u16; 4]) -> Result<(), NoMemory>
        requires { HaveZoneNumbers zones.now }
        ensures { TellZonesOf points.now zones.now self.old.blocks.items
            → TellZonesOf points.now zones.now self.new.blocks.items }
    {
        let Some(block) = BlockZones::of_block(points, zones, firsts) else {
            return Ok(());
        };
        let number = self.blocks.len().min(NONE_THERE as usize);
        put_at(&mut self.numbers, firsts[0] as usize, number as u8);
        self.blocks.push(block)?;
        Ok(())
    }

    /// What is told of a block, by the first places of its eights, if it is known: at once where `number`, a guess, is
    /// that of the block.
    #[inline(always)]
    pub fn at(&self, number: usize, firsts: &[u16; 4]) -> Option<&BlockZones>
        ensures { IfSome result (λ block. HasBlock self.now.blocks.items firsts.now block.now) }
    {
        match self.numbered(number, firsts) {
            Some(block) => Some(block),
            None => self.of_firsts(firsts),
        }
    }

    // What is told of a block, by the first places of its eights, if it is known. It stands apart, so that blocks whose
    // number was guessed need not share registers with it.
    #[inline(never)]
    fn of_firsts(&self, firsts: &[u16; 4]) -> Option<&BlockZones>
        ensures { IfSome result (λ block. HasBlock self.now.blocks.items firsts.now block.now) }
    {
        let number = self.numbers.get(firsts[0] as usize)?;
        self.numbered(*number as usize, firsts)
    }

    // What is told of the block with this number, if its eights have these first places.
    #[inline(always)]
    fn numbered(&self, number: usize, firsts: &[u16; 4]) -> Option<&BlockZones>
        ensures { IfSome result (λ block. HasBlock self.now.blocks.items firsts.now block.now) }
    {
        let block = self.blocks.get(number)?;
        if block.firsts == *firsts {
            Some(block)
        } else {
            None
        }
    }
}

// Puts a number at a place, if there is that place.
fn put_at(numbers: &mut Vec<u8>, place: usize, number: u8) {
    if place < numbers.len() {
        numbers[place] = number;
    }
}
