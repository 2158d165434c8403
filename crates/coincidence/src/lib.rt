//! Decides what the answers of a panel's points mean for its zones: which answers count, which zones they
//! confirm and release, and which points are missing.
//!
//! Begin with [`Decide`]. [`Decide::new`] makes it of a valid site and what is retained of it;
//! [`Decide::turn`] takes the answers that lie in a lane, at most 32, and puts exactly one [`Finding`] for
//! each, in order; [`Decide::apply`] takes an operation that was done at the panel, which is in force from
//! the next tick on.
//!
//! What a finding says is defined in `coincidence_rules`, over two lists alone: the answers taken, the oldest
//! first, and the operations done, the newest first. Each clause here speaks of any two such lists that the
//! object stands for, so it holds however the calls were mixed. The premises are those of specs/Premises: the
//! answers are of the panel's points, their stamps never fall, no point answers twice in one tick, no answer
//! is taken that is stamped before an operation done, and no operation is applied in a tick before an answer
//! taken.
//!
//! The answers and operations themselves are not kept. Of a zone's answers the latest of two different points
//! are enough, since a later one always serves where an earlier one would; of a point's own answers where its
//! run of counted ones began; of an operation its tick and the value before. In a plain zone, which each alarm that
//! counts confirms by itself, no answer makes a pair, so none is kept.
//!
//! Three kinds of answers change nothing of it, and a group of eight is asked for them by bits: quiet answers of
//! points at rest, those whose last answer wasn't silent and didn't count; silent answers of points that are
//! missing already; and alarms that go on, those of marked points. A detector in a plain zone is marked by an
//! alarm that counts and changes nothing, once all operations on it, its zone and the panel lie before that
//! alarm's tick; any other answer of it that changes something unmarks it, and an operation unmarks all points.
//! A whole block of four eights is passed over in one step where all its answers are of the first two kinds, or
//! where all others are alarms that go on, and the points of each eight are of no more than two zones: what such
//! alarms tell is found at the start, once for each block. In any other whole block of which that is found, each answer
//! that is of none of the three kinds is taken by itself, and those between are passed over; the findings are put in
//! one step, up to the first alarm of a call point or in a zone that isn't plain. Any other block, and what is left of
//! one, is taken eight by eight. A run within a group of eight is passed over in one step where all its answers are of
//! the first two kinds, and in one step for each zone where all others are alarms that go on. Of any other run each
//! answer that is of neither of the first two kinds is taken by itself, which costs the same, whatever the site. A turn
//! takes no memory; only [`Decide::new`] does.
#![tactic(auto)]

mod alarms;
mod bits;
mod block_findings;
mod block_zones;
mod blocks;
mod changed_blocks;
mod decide;
mod eight_zones;
mod gathering;
mod going_on;
mod judgement;
mod known_zones;
mod observation;
mod partner_finding;
mod partners;
mod plain_finding;
mod plain_zone;
mod point_stamp;
mod point_watch;
mod point_watches;
mod recent;
mod rules;
mod runs;
mod watches;
mod zone_part;
mod zone_watch;

pub use coincidence_rules::Finding;
pub use decide::Decide;
