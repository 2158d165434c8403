//! Reading a slot.

ghost use Rattle.std.specs.Prelude.{◌≡◌, ◌+◌, ◌<◌, ◌≤◌, length};
ghost use Rattle.retained_journal.specs.Slots.{loop_at, panel_points as points_of_panel, points_at};
ghost use Rattle.retained_journal.specs.Slots.{retained_at as state_at};
ghost use Rattle.retained_journal.specs.Places.{bytes_of_slot};

use crate::fields::{panel_numbers_at, points_mask_at};
use crate::layout::{
    COUNTERS_PLACE, DELAYS_PLACE, OUTPUTS_PLACE, POINTS_PLACE, TESTS_PLACE, WIDE_POINTS_PLACE,
    ZONES_PLACE,
};
use site_types::{PointSet, Retained};

// The disabled points of one of the 32 loops.
fn read_loop(wide: bool, at: usize, which: usize, bytes: &[u8]) -> [u128; 2]
    requires fits { at + bytes_of_slot ≤ length bytes.now }
    requires which { which < 32 }
    ensures { result ≡ loop_at wide at which bytes.now }
{
    let low = points_mask_at(bytes, at + POINTS_PLACE + 12 * which);
    let high = if wide {
        points_mask_at(bytes, at + WIDE_POINTS_PLACE + 12 * which)
    } else {
        0
    };
    [low, high]
}

// The disabled points of a panel.
fn panel_points(wide: bool, at: usize, panel: usize, bytes: &[u8]) -> PointSet
    requires fits { at + bytes_of_slot ≤ length bytes.now }
    requires panel { panel < 8 }
    ensures { result ≡ points_of_panel wide at panel bytes.now }
{
    PointSet {
        loops: [
            read_loop(wide, at, 4 * panel, bytes),
            read_loop(wide, at, 4 * panel + 1, bytes),
            read_loop(wide, at, 4 * panel + 2, bytes),
            read_loop(wide, at, 4 * panel + 3, bytes),
        ],
    }
}

// The disabled points of the eight panels.
fn read_points(wide: bool, at: usize, bytes: &[u8]) -> [PointSet; 8]
    requires { at + bytes_of_slot ≤ length bytes.now }
    ensures { result ≡ points_at wide at bytes.now }
{
    let mut points = [PointSet::default(); 8];
    for panel in 0..8 {
        points[panel] = panel_points(wide, at, panel, bytes);
    }
    points
}

// The state that the slot at a place holds.
pub(crate) fn retained_at(wide: bool, at: usize, bytes: &[u8]) -> Retained
    requires { at + bytes_of_slot ≤ length bytes.now }
    ensures { result ≡ state_at wide at bytes.now }
{
    Retained {
        points: read_points(wide, at, bytes),
        zones: panel_numbers_at(bytes, at + ZONES_PLACE),
        outputs: panel_numbers_at(bytes, at + OUTPUTS_PLACE),
        delays_off: bytes[at + DELAYS_PLACE],
        counters: panel_numbers_at(bytes, at + COUNTERS_PLACE),
        tests: panel_numbers_at(bytes, at + TESTS_PLACE),
    }
}
