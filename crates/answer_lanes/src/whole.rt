ghost use Rattle.answer_lanes.specs.Moves.{AreWhole};

use crate::run::Run;
use crate::several::Several;

/// The runs at the front of others that may be moved whole.
#[derive(Clone, Copy)]
pub(crate) struct Whole {
    /// How many runs there are.
    pub(crate) runs: usize,
    /// How many items they hold together.
    pub(crate) items: u8,
}

// The first runs that hold at most so many items together. Mostly the first one by itself holds as many.
#[inline(always)]
pub(crate) fn whole_runs<S: Several>(runs: &[Run<S>], most: u8) -> Whole
    ensures { AreWhole S.item_at most runs.now result.runs result.items }
{
    if let [run, ..] = runs {
        if run.count == most {
            return Whole {
                runs: 1,
                items: most,
            };
        }
    }
    counted_runs(runs, most)
}

// The first runs that hold at most so many items together, counted one by one.
#[inline(never)]
fn counted_runs<S: Several>(runs: &[Run<S>], most: u8) -> Whole
    ensures { AreWhole S.item_at most runs.now result.runs result.items }
{
    let mut whole = Whole { runs: 0, items: 0 };
    for run in runs {
        if run.count > most - whole.items {
            return whole;
        }
        whole.runs += 1;
        whole.items += run.count;
    }
    whole
}
