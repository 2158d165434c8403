ghost use Rattle.std.specs.Prelude.{◌≡◌};
ghost use Rattle.coincidence_rules.specs.Missing.{begins_silent, is_missing as is_missing_by, latest_of};

use site_types::{Answer, Heard};

/// Whether the last three answers of a point were silent.
pub(crate) fn is_missing(answers: &[Answer], point: usize) -> bool
    ensures { result ≡ is_missing_by answers.now point }
{
    ends_silent(3, point, answers)
}

// Whether a point gave so many answers, and the last ones were silent.
fn ends_silent(count: u8, point: usize, answers: &[Answer]) -> bool
    ensures { result ≡ begins_silent count (latest_of point answers.now) }
{
    if count == 0 {
        return true;
    }
    match answers {
        [] => false,
        [before @ .., last] if last.point as usize == point => {
            is_silent(last.heard) && ends_silent(count - 1, point, before)
        }
        [before @ .., _] => ends_silent(count, point, before),
    }
}

ghost use Rattle.coincidence_rules.specs.Counted.{is_silent as is_silent_heard};

fn is_silent(heard: Heard) -> bool
    ensures { result ≡ is_silent_heard heard }
{
    matches!(heard, Heard::Silent)
}
