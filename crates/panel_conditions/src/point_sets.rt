//! What is done to sets of points: one point put in or taken out, and two sets joined or parted.

ghost use Rattle.std.specs.Prelude.{◌≡◌, ◌∷◌, [], bit_or, bit_and, slice_index};
ghost use Rattle.std.specs.Int.{w128, bit_not};
ghost use Rattle.panel_conditions.specs.PointSets.{either_line, either_set, line_without, put_at, set_without};

use crate::loop_address::LoopAddress;
use site_types::PointSet;

/// Puts the point of an address into a set or takes it out. Where there is no address, the set stays.
pub fn put(set: &mut PointSet, address: Option<LoopAddress>, on: bool)
    ensures { set.new ≡ put_at address on set.old }
{
    if let Some(at) = address {
        if is_place(&at) {
            set.set(at.line, at.address, on);
        }
    }
}

ghost use Rattle.panel_conditions.specs.PointSets.{is_place as has_place};

// Whether a set has a place for an address.
fn is_place(at: &LoopAddress) -> bool
    ensures { result ≡ has_place at.now }
{
    (at.line >= 1 && at.line <= 4) && (at.address >= 1 && at.address <= 192)
}

/// The points of either set.
pub fn either(a: &PointSet, b: &PointSet) -> PointSet
    ensures { result ≡ either_set a.now b.now }
{
    PointSet {
        loops: [
            either_on_line(&a.loops[0], &b.loops[0]),
            either_on_line(&a.loops[1], &b.loops[1]),
            either_on_line(&a.loops[2], &b.loops[2]),
            either_on_line(&a.loops[3], &b.loops[3]),
        ],
    }
}

/// The points of the first set that aren't in the second.
pub fn without(a: &PointSet, b: &PointSet) -> PointSet
    ensures { result ≡ set_without a.now b.now }
{
    PointSet {
        loops: [
            without_on_line(&a.loops[0], &b.loops[0]),
            without_on_line(&a.loops[1], &b.loops[1]),
            without_on_line(&a.loops[2], &b.loops[2]),
            without_on_line(&a.loops[3], &b.loops[3]),
        ],
    }
}

fn either_on_line(a: &[u128; 2], b: &[u128; 2]) -> [u128; 2]
    ensures { result ≡ either_line a.now b.now }
{
    [a[0] | b[0], a[1] | b[1]]
}

fn without_on_line(a: &[u128; 2], b: &[u128; 2]) -> [u128; 2]
    ensures { result ≡ line_without a.now b.now }
{
    [a[0] & !b[0], a[1] & !b[1]]
}
