//! Pairs of points for a zone, both of it or one of it and one of its partner.

ghost use Rattle.std.specs.Prelude.{ℕ};
ghost use Rattle.zone_signals.specs.Pairs.{ArePairBars, HasOneOfEach, HasPairAcross};
ghost use Rattle.zone_signals.specs.Rounds.{HasPairAfter};
ghost use Rattle.zone_signals.specs.Telling.{TellsOfPoints};

use crate::kind::Kind;
use crate::known::Known;
use crate::zones_held::{one_held, two_held};

/// Whether two points that make a pair are held for a round, the second one after a later tick. The tick after which
/// the first one is is given for a pair of the zone alone, and for one with its partner.
pub fn pair_held(
    known: &Known,
    zone: usize,
    partner: Option<u16>,
    kind: Kind,
    own: u64,
    both: u64,
    later: u64,
) -> bool
    ensures { (bar : ℕ → ℕ) → ArePairBars known.now.site.now zone partner bar own both
        → TellsOfPoints (λ kept done moments. HasPairAfter known.now.site.now kept done moments kind
        zone bar later known.now.tick) known.now result }
{
    two_held(known, zone, kind, own, later)
        || pair_held_across(known, zone, partner, kind, both, later)
}

// Whether a point of a zone and one of its partner make a pair: each held for a round, and one of them late enough.
fn pair_held_across(
    known: &Known,
    zone: usize,
    partner: Option<u16>,
    kind: Kind,
    both: u64,
    later: u64,
) -> bool
    ensures { TellsOfPoints (λ kept done moments. HasPairAcross known.now.site.now kept done moments
        kind zone partner both later known.now.tick) known.now result }
{
    match partner {
        None => false,
        Some(other) => {
            each_held(known, zone, other as usize, kind, both, later)
                || each_held(known, other as usize, zone, kind, both, later)
        }
    }
}

fn each_held(known: &Known, zone: usize, other: usize, kind: Kind, after: u64, later: u64) -> bool
    ensures { TellsOfPoints (λ kept done moments. HasOneOfEach known.now.site.now kept done moments
        kind zone other after later known.now.tick) known.now result }
{
    one_held(known, zone, kind, after) && one_held(known, other, kind, later)
}
