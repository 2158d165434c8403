//! What a face shows of a group, and whether two faces show the same.

ghost use Rattle.std.specs.Prelude.{◌≡◌, ◌≤◌, ◌-◌, ℕ, [], ◌∷◌, true, false, slice_index, slice_index_or};
ghost use Rattle.site_types.specs.Bits.{bit_of, half_of, has_bit};
ghost use Rattle.face_text.specs.Slots.{HasPlace, last_of, shows as is_shown};

use crate::face::Face;
use crate::group::Group;
use site_types::{PointSet, has_bit_8, has_bit_32};

/// Whether a face shows the thing of a group with a number.
pub fn shows(face: &Face, group: Group, number: u8) -> bool
    requires group { HasPlace group }
    requires number { (1 ≤ number) × (number ≤ last_of group) }
    ensures { result ≡ is_shown face.now group number }
{
    let bit = number - 1;
    match group {
        Group::Zones(panel) => has_bit_32(face.zones[panel as usize - 1], bit),
        Group::Firsts(panel) => has_bit_32(face.firsts[panel as usize - 1], bit),
        Group::Missing(line) => face.faults.missing.contains(line, number),
        Group::Broken => has_bit_8(face.faults.broken, bit),
        Group::Shorted => has_bit_8(face.faults.shorted, bit),
        Group::Supplies => has_bit_8(face.faults.supply, bit),
        Group::Silent => has_bit_8(face.faults.silent, bit),
        Group::Links => has_bit_8(face.faults.links, bit),
        Group::Unconfirmed => has_bit_32(face.faults.unconfirmed, bit),
        Group::Outputs => has_bit_32(face.outputs, bit),
        Group::Confirmed => has_bit_32(face.confirmed, bit),
        Group::PointsOff(line) => face.points_off.contains(line, number),
        Group::ZonesOff => has_bit_32(face.zones_off, bit),
        Group::OutputsOff => has_bit_32(face.outputs_off, bit),
        Group::Tests => has_bit_32(face.test, bit),
    }
}

/// The things of a group that a face shows, in two masks: number 1 is bit 0 of the first, number 97 bit 0 of the
/// second.
pub fn masks_of(face: &Face, group: Group) -> [u128; 2]
    requires { HasPlace group }
    ensures { (number : ℕ) → 1 ≤ number → number ≤ last_of group
        → has_bit (slice_index result (half_of number)) (bit_of number)
        ≡ is_shown face.now group number }
{
    let faults = &face.faults;
    match group {
        Group::Zones(panel) => one_mask(face.zones[panel as usize - 1]),
        Group::Firsts(panel) => one_mask(face.firsts[panel as usize - 1]),
        Group::Missing(line) => faults.missing.loops[line as usize - 1],
        Group::Broken => one_mask(faults.broken as u32),
        Group::Shorted => one_mask(faults.shorted as u32),
        Group::Supplies => one_mask(faults.supply as u32),
        Group::Silent => one_mask(faults.silent as u32),
        Group::Links => one_mask(faults.links as u32),
        Group::Unconfirmed => one_mask(faults.unconfirmed),
        Group::Outputs => one_mask(face.outputs),
        Group::Confirmed => one_mask(face.confirmed),
        Group::PointsOff(line) => face.points_off.loops[line as usize - 1],
        Group::ZonesOff => one_mask(face.zones_off),
        Group::OutputsOff => one_mask(face.outputs_off),
        Group::Tests => one_mask(face.test),
    }
}

// The masks of a group whose numbers go up to 32.
fn one_mask(mask: u32) -> [u128; 2]
    ensures { (number : ℕ) → 1 ≤ number → number ≤ 32
        → has_bit (slice_index result (half_of number)) (bit_of number)
        ≡ has_bit mask (number - 1) }
{
    [mask as u128, 0]
}

/// Whether two faces have the same mask of a group.
pub fn is_same(before: &Face, after: &Face, group: Group) -> bool
    requires { HasPlace group }
    ensures { result ≡ true → (number : ℕ)
        → is_shown before.now group number ≡ is_shown after.now group number }
{
    match group {
        Group::Zones(panel) => before.zones[panel as usize - 1] == after.zones[panel as usize - 1],
        Group::Firsts(panel) => {
            before.firsts[panel as usize - 1] == after.firsts[panel as usize - 1]
        }
        Group::Missing(line) => is_same_loop(&before.faults.missing, &after.faults.missing, line),
        Group::Broken => before.faults.broken == after.faults.broken,
        Group::Shorted => before.faults.shorted == after.faults.shorted,
        Group::Supplies => before.faults.supply == after.faults.supply,
        Group::Silent => before.faults.silent == after.faults.silent,
        Group::Links => before.faults.links == after.faults.links,
        Group::Unconfirmed => before.faults.unconfirmed == after.faults.unconfirmed,
        Group::Outputs => before.outputs == after.outputs,
        Group::Confirmed => before.confirmed == after.confirmed,
        Group::PointsOff(line) => is_same_loop(&before.points_off, &after.points_off, line),
        Group::ZonesOff => before.zones_off == after.zones_off,
        Group::OutputsOff => before.outputs_off == after.outputs_off,
        Group::Tests => before.test == after.test,
    }
}

// Whether two sets have the same points of a loop.
fn is_same_loop(before: &PointSet, after: &PointSet, line: u8) -> bool
    requires { (1 ≤ line) × (line ≤ 4) }
    ensures { result ≡ true
        → slice_index_or before.now.loops (line - 1) [] ≡ slice_index_or after.now.loops (line - 1)
        [] }
{
    before.loops[line as usize - 1] == after.loops[line as usize - 1]
}

/// Whether a face's mask of a group is empty.
pub fn is_blank(face: &Face, group: Group) -> bool
    requires { HasPlace group }
    ensures { result ≡ true → (number : ℕ) → is_shown face.now group number ≡ false }
{
    match group {
        Group::Zones(panel) => face.zones[panel as usize - 1] == 0,
        Group::Firsts(panel) => face.firsts[panel as usize - 1] == 0,
        Group::Missing(line) => is_blank_loop(&face.faults.missing, line),
        Group::Broken => face.faults.broken == 0,
        Group::Shorted => face.faults.shorted == 0,
        Group::Supplies => face.faults.supply == 0,
        Group::Silent => face.faults.silent == 0,
        Group::Links => face.faults.links == 0,
        Group::Unconfirmed => face.faults.unconfirmed == 0,
        Group::Outputs => face.outputs == 0,
        Group::Confirmed => face.confirmed == 0,
        Group::PointsOff(line) => is_blank_loop(&face.points_off, line),
        Group::ZonesOff => face.zones_off == 0,
        Group::OutputsOff => face.outputs_off == 0,
        Group::Tests => face.test == 0,
    }
}

// Whether a set has no point of a loop.
fn is_blank_loop(set: &PointSet, line: u8) -> bool
    requires { (1 ≤ line) × (line ≤ 4) }
    ensures { result ≡ true → slice_index_or set.now.loops (line - 1) [] ≡ 0 ∷ 0 ∷ [] }
{
    set.loops[line as usize - 1] == [0, 0]
}

/// The greatest number that a thing of a group may have in any site.
pub fn last_number(group: Group) -> u8
    ensures { result ≡ last_of group }
{
    match group {
        Group::Missing(_) | Group::PointsOff(_) => 192,
        Group::Broken | Group::Shorted | Group::Supplies => 4,
        Group::Silent | Group::Links => 8,
        _ => 32,
    }
}
