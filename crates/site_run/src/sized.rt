//! That what is kept has all its places: eight panels, four loops of each and two halves of a loop. Nothing is done
//! here: contracts learn how long the lists are.

ghost use Rattle.std.specs.Prelude.{◌≡◌, ◌<◌, ℕ, [], length, slice_index_or};
ghost use Rattle.site_types.specs.Changes.{IsSized};
ghost use Rattle.site_types.specs.Done.{no_points};

use site_types::{PointSet, Retained};

/// What is kept is as long as its type says.
pub fn note_sized(kept: &Retained)
    ensures { IsSized kept.now }
{
    note_points(&kept.points);
    note_numbers(&kept.zones);
    note_numbers(&kept.outputs);
    note_numbers(&kept.counters);
    note_numbers(&kept.tests);
}

fn note_numbers(numbers: &[u32; 8])
    ensures { length numbers.now ≡ 8 }
{}

fn note_points(points: &[PointSet; 8])
    ensures panels { length points.now ≡ 8 }
    ensures loops { (k : ℕ) → k < 8 → length (slice_index_or points.now k no_points).loops ≡ 4 }
    ensures halves { (k l : ℕ) → k < 8 → l < 4
        → length (slice_index_or (slice_index_or points.now k no_points).loops l []) ≡ 2 }
{
    for place in 0..8 {
        note_loops(&points[place].loops);
    }
}

fn note_loops(loops: &[[u128; 2]; 4])
    ensures loops { length loops.now ≡ 4 }
    ensures halves { (l : ℕ) → l < 4 → length (slice_index_or loops.now l []) ≡ 2 }
{
    for place in 0..4 {
        note_halves(&loops[place]);
    }
}

fn note_halves(halves: &[u128; 2])
    ensures { length halves.now ≡ 2 }
{}
