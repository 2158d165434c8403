//! Numbers drawn from a seed: the same at each run.

ghost use Rattle.std.specs.Prelude.{◌<◌};

use rand_core::Rng;
use rand_pcg::Pcg32;

/// A number below a bound, 0 where the bound is 0.
pub fn below(draws: &mut Pcg32, bound: u64) -> u64
    ensures { 0 < bound → result < bound }
{
    let number = draws.next_u64();
    if bound == 0 { 0 } else { number % bound }
}
