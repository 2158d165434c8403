//! What is drawn of the outputs of panel 1 of the site of two panels, and what plain programs over the whole lists
//! share.

use rand_core::Rng;
use rand_pcg::Pcg32;

/// The turns of a history.
pub(crate) const TURNS: u64 = 60;
/// The stream of numbers that is drawn from.
pub(crate) const STREAM: u64 = 54;

/// The outputs of panel 1 of the site of two panels, with their delays and whether they confirm.
pub(crate) const OUTPUTS: [(u8, u64, bool); 4] = [
    (1, 0, false),
    (2, 1, true),
    (3, 3, true),
    (32, 6, false),
];

/// One time in so many.
pub(crate) fn is_one_in(draws: &mut Pcg32, many: u32) -> bool {
    many > 0 && draws.next_u32() % many == 0
}

// A mask of the outputs above.
fn drawn_outputs(draws: &mut Pcg32) -> u32 {
    let bits = draws.next_u32();
    (bits & 0b111) | ((bits & 0b1000) << 28)
}

/// Three of four outputs, or more.
pub(crate) fn most_outputs(draws: &mut Pcg32) -> u32 {
    drawn_outputs(draws) | drawn_outputs(draws) | drawn_outputs(draws)
}

/// One of four outputs, or fewer.
pub(crate) fn few_outputs(draws: &mut Pcg32) -> u32 {
    drawn_outputs(draws) & drawn_outputs(draws) & drawn_outputs(draws)
}

/// Whether an output is in a mask.
pub(crate) fn has(mask: u32, number: u8) -> bool {
    number >= 1 && number <= 32 && (mask >> (number - 1)) & 1 == 1
}

/// How many of the latest turns found an output in their mask, one after the other, and the tick of the first
/// of them. The turns are those of ticks 1, 2 and so on.
pub(crate) fn run_of(masks: &[u32], number: u8) -> (u64, u64) {
    let mut run: u64 = 0;
    let mut first: u64 = 1;
    let mut next: u64 = 1;
    for mask in masks {
        next = next.saturating_add(1);
        run = if has(*mask, number) {
            run.saturating_add(1)
        } else {
            first = next;
            0
        };
    }
    (run, first)
}
