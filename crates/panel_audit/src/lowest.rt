//! Which of some zones or outputs comes first.

ghost use Rattle.std.specs.Prelude.{◌≡◌, ◌<◌, false, length, slice_index_or};
ghost use Rattle.panel_audit.specs.Lowest.{ComesFirst, MarkedLowest};

use crate::numbered::Numbered;

/// Of the things that are marked the first one by panel and number.
pub(crate) fn lowest_marked(things: &[Numbered], marks: &[bool]) -> Option<usize>
    ensures { MarkedLowest things.now marks.now result }
{
    let mut lowest = None;
    for place in 0..things.len() {
        if is_marked(marks, place) && comes_first(things, place, lowest) {
            lowest = Some(place);
        }
    }
    lowest
}

fn is_marked(marks: &[bool], place: usize) -> bool
    ensures { result ≡ slice_index_or marks.now place false }
{
    match marks.get(place) {
        Some(mark) => *mark,
        None => false,
    }
}

// Whether a thing comes before the first one so far.
fn comes_first(things: &[Numbered], place: usize, lowest: Option<usize>) -> bool
    requires { place < length things.now }
    ensures { ComesFirst things.now place lowest result }
{
    match lowest {
        None => true,
        Some(best) => match things.get(best) {
            None => true,
            Some(best) => things[place].is_below(*best),
        },
    }
}
