//! Where a line may stand among those of a tick.

ghost use Rattle.std.specs.Prelude.{◌≡◌, ◌<◌};
ghost use Rattle.face_reading.specs.Entries.{group_rank as place_of_group, rank_of as place_of_entry, slot_of};
ghost use Rattle.face_reading.specs.Entries.{slot_rank};

use crate::change::Change;
use crate::entry::Entry;
use face_text::Group;

/// The place of a line in its tick, a number that rises from line to line: pages by panel, answers by number,
/// busy panels, the store.
pub fn rank_of(entry: &Entry) -> u128
    ensures { result ≡ place_of_entry entry.now }
{
    match entry {
        Entry::Change { panel, change } => *panel as u128 * 100_000 + change_rank(change) as u128,
        Entry::Answer(answer) => FIRST_ANSWER + answer.number as u128,
        Entry::Busy { panel, .. } => FIRST_BUSY + *panel as u128,
        Entry::StoreFailed => FIRST_BUSY + 9,
        Entry::Tick(_) | Entry::End(_) => 0,
    }
}

const FIRST_ANSWER: u128 = 1_000_000;

// Behind the answer with the greatest number.
const FIRST_BUSY: u128 = FIRST_ANSWER + (1 << 64);

// The place of a change on the page of its panel.
fn change_rank(change: &Change) -> u32
    ensures { result ≡ slot_rank (slot_of change.now) }
{
    match change {
        Change::Thing { group, number, .. } => group_rank(group) * 1000 + *number as u32,
        Change::Delays(_) => 36_000,
        Change::Buzzer(_) => 37_000,
        Change::Counter(_) => 38_000,
    }
}

fn group_rank(group: &Group) -> u32
    ensures place { result ≡ place_of_group group.now }
    ensures small { result < 300 }
{
    match group {
        Group::Zones(panel) => *panel as u32,
        Group::Firsts(panel) => 8 + *panel as u32,
        Group::Missing(line) => 16 + *line as u32,
        Group::Broken => 21,
        Group::Shorted => 22,
        Group::Supplies => 23,
        Group::Silent => 24,
        Group::Links => 25,
        Group::Unconfirmed => 26,
        Group::Outputs => 27,
        Group::Confirmed => 28,
        Group::PointsOff(line) => 28 + *line as u32,
        Group::ZonesOff => 33,
        Group::OutputsOff => 34,
        Group::Tests => 35,
    }
}
