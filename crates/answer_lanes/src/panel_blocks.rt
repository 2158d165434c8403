//! The blocks in which a panel's points are asked.

ghost use Rattle.std.specs.Prelude.{◌≡◌, ◌<◌, All, IfOk, true};
ghost use Rattle.answer_lanes.specs.PanelBlocks.{IsAsked, IsBlockOf};

use crate::block_places::place_of;
use site_types::Point;
use std::alloc::Global;
use tick_units::NoMemory;

// The addresses of a loop lie in as many groups of eight.
const GROUPS: usize = 24;

/// Blocks in which a panel's points are asked, each by the places of the first points of its four eights: eight
/// points of each loop, one behind the other in the site and at eight addresses. It is meant to find them all.
pub fn blocks_of_panel(
    alloc: Global,
    points: &[Point],
    panel: u8,
) -> Result<Vec<[u16; 4]>, NoMemory>
    ensures { IfOk result (λ blocks. All (IsBlockOf points.now panel) blocks.items) }
{
    let firsts = first_places(points, panel);
    let mut blocks = Vec::with_capacity(alloc, GROUPS)?;
    for group in 0..GROUPS {
        let block = firsts[group];
        if is_block(points, panel, 8 * group as u8 + 1, &block) {
            blocks.push(block)?;
        }
    }
    Ok(blocks)
}

// By group and loop, the place of a point at the group's first address, where there is one.
fn first_places(points: &[Point], panel: u8) -> [[u16; 4]; GROUPS] {
    let mut firsts = [[0; 4]; GROUPS];
    for (place, point) in points.iter().enumerate() {
        let group = point.address as usize / 8;
        let line = (point.line as usize).wrapping_sub(1);
        if point.panel == panel && point.address % 8 == 1 && group < GROUPS && line < 4 {
            firsts[group][line] = place.min(u16::MAX as usize) as u16;
        }
    }
    firsts
}

// Whether the 32 points of a block are those of a panel's four loops at eight addresses from one on.
fn is_block(points: &[Point], panel: u8, from: u8, firsts: &[u16; 4]) -> bool
    requires { from < 248 }
    ensures { result ≡ true → IsBlockOf points.now panel firsts.now }
{
    for k in 0..32 {
        match points.get(place_of(firsts, k)) {
            Some(point) if is_asked(point, panel, from, k) => {}
            _ => return false,
        }
    }
    true
}

// Whether a point stands at one of the 32 places of a block, counted from 0.
fn is_asked(point: &Point, panel: u8, from: u8, k: usize) -> bool
    requires few { k < 32 }
    requires from { from < 248 }
    ensures { result ≡ true → IsAsked panel from k point.now }
{
    point.panel == panel
        && point.line as usize == k / 8 + 1
        && point.address as usize == from as usize + k % 8
}
