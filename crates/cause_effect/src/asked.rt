//! The outputs of a panel whose markers are true.

ghost use Rattle.std.specs.Prelude.{◌≡◌, ◌<◌, ◌+◌, ◌||◌, ℕ};
ghost use Rattle.site_types.specs.Bits.{has_bit};
ghost use Rattle.marker_table.specs.Equations.{values_of};
ghost use Rattle.cause_effect.specs.Requests.{asked_among, asks_among};

use marker_table::Values;
use site_types::{Output, Requests, with_bit_32};

// What outputs of one panel are asked for, by one solution and by hand.
pub(crate) fn requests_among(outputs: &[Output], normal: &Values, manual: &Values) -> Requests
    ensures asked { result.asked ≡ asked_among (values_of normal.now) outputs.now }
    ensures manual { result.manual ≡ asked_among (values_of manual.now) outputs.now }
{
    Requests {
        asked: asked_by(outputs, normal),
        manual: asked_by(outputs, manual),
    }
}

// The outputs of one panel whose markers are true. Where no marker is true, as by hand mostly, no output is looked at.
fn asked_by(outputs: &[Output], values: &Values) -> u32
    ensures { result ≡ asked_among (values_of values.now) outputs.now }
{
    if values.is_none() {
        return 0;
    }
    let mut asked = 0;
    for output in outputs {
        asked = with_output(asked, output, values);
    }
    asked
}

// A mask with the bit of an output, where its marker is true.
fn with_output(mask: u32, output: &Output, values: &Values) -> u32
    ensures { (bit : ℕ) → bit < 32 → has_bit result bit
        ≡ (has_bit mask bit || asks_among (values_of values.now) (bit + 1) output.now) }
{
    let number = output.number;
    if 1 <= number && number <= 32 && values.is_true(output.marker) {
        return with_bit_32(mask, number - 1, true);
    }
    mask
}
