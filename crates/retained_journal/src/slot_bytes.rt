//! Writing a slot.

ghost use Rattle.std.specs.Prelude.{◌≡◌, ◌⊎◌, ◌+◌, ◌*◌, ◌^◌, ◌<◌, ◌≤◌, ℕ, Bool, length, slice_index};
ghost use Rattle.retained_journal.specs.Fields.{mask_at, numbers_at};
ghost use Rattle.retained_journal.specs.Slots.{AreNarrow, FitHalves, FitLoops, FitPoints, HasNarrowLoops};
ghost use Rattle.retained_journal.specs.Slots.{HasNarrowPoints, SameButLoops, loop_at, panel_points, points_at};
ghost use Rattle.retained_journal.specs.Slots.{retained_at, slot_number};
ghost use Rattle.retained_journal.specs.Places.{bytes_of_slot};

use crate::fields::put;
use crate::layout::{
    COUNTERS_PLACE, DELAYS_PLACE, OUTPUTS_PLACE, POINTS_PLACE, SLOT_BYTES, TESTS_PLACE,
    WIDE_POINTS_PLACE, ZONES_PLACE,
};
use byteorder::{BigEndian, ByteOrder, LittleEndian};
use site_types::{PointSet, Retained};

// The slot with an open gate that holds a number and a state.
pub(crate) fn slot_bytes(number: u64, state: &Retained) -> [u8; SLOT_BYTES]
    requires { FitPoints state.now.points }
    ensures gate { slice_index result 0 ≡ 1 }
    ensures number { slot_number 0 result ≡ number }
    ensures state { (wide : Bool) → HasNarrowPoints wide state.now.points →
        retained_at wide 0 result ≡ state.now }
{
    let mut slot = [0; SLOT_BYTES];
    slot[0] = 1;
    let mut number_bytes = [0; 8];
    BigEndian::write_u64(&mut number_bytes, number);
    put(&mut slot, 1, &number_bytes);
    put_points(&mut slot, &state.points);
    put(&mut slot, ZONES_PLACE, &numbers_bytes(&state.zones));
    put(&mut slot, OUTPUTS_PLACE, &numbers_bytes(&state.outputs));
    put(&mut slot, DELAYS_PLACE, &[state.delays_off]);
    put(&mut slot, COUNTERS_PLACE, &numbers_bytes(&state.counters));
    put(&mut slot, TESTS_PLACE, &numbers_bytes(&state.tests));
    slot
}

// The number of each panel.
fn numbers_bytes(numbers: &[u32; 8]) -> [u8; 32]
    ensures { numbers_at 0 result ≡ numbers.now }
{
    let mut bytes = [0; 32];
    BigEndian::write_u32_into(numbers, &mut bytes);
    bytes
}

// Writes the disabled points of the eight panels.
fn put_points(slot: &mut [u8; SLOT_BYTES], points: &[PointSet; 8])
    requires { FitPoints points.now }
    ensures points { (wide : Bool) → HasNarrowPoints wide points.now →
        points_at wide 0 slot.new ≡ points.now }
    ensures others { SameButLoops 0 32 slot.old slot.new }
{
    for panel in 0..8 {
        put_panel(slot, panel, &points[panel].loops);
    }
}

// Writes the disabled points of a panel.
fn put_panel(slot: &mut [u8; SLOT_BYTES], panel: usize, loops: &[[u128; 2]; 4])
    requires panel { panel < 8 }
    requires fit { FitLoops loops.now }
    ensures points { (wide : Bool) → HasNarrowLoops wide loops.now →
        (panel_points wide 0 panel slot.new).loops ≡ loops.now }
    ensures others { SameButLoops (4 * panel) 4 slot.old slot.new }
{
    for line in 0..4 {
        put_loop(slot, 4 * panel + line, &loops[line]);
    }
}

// Writes the disabled points of one of the 32 loops.
fn put_loop(slot: &mut [u8; SLOT_BYTES], which: usize, halves: &[u128; 2])
    requires which { which < 32 }
    requires fit { FitHalves halves.now }
    ensures points { (wide : Bool) → AreNarrow wide halves.now →
        loop_at wide 0 which slot.new ≡ halves.now }
    ensures others { SameButLoops which 1 slot.old slot.new }
{
    put_mask(slot, POINTS_PLACE + 12 * which, halves[0]);
    put_mask(slot, WIDE_POINTS_PLACE + 12 * which, halves[1]);
}

// Writes the mask of 96 points.
fn put_mask(slot: &mut [u8; SLOT_BYTES], at: usize, mask: u128)
    requires at { at + 12 ≤ bytes_of_slot }
    requires fits { mask < 2 ^ 96 }
    ensures inside { mask_at 12 at slot.new ≡ mask }
    ensures outside { (i : ℕ) → (i < at) ⊎ (at + 12 ≤ i) →
        slice_index slot.new i ≡ slice_index slot.old i }
{
    let mut piece = [0; 12];
    LittleEndian::write_uint128(&mut piece, mask, 12);
    put(slot, at, &piece);
}
