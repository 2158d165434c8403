//! The conditions of one panel: which of its zones it holds in alarm, alarm by hand, release and first state,
//! which faults it shows, what its buzzer sounds, and how often it entered the fire alarm condition.
//!
//! Begin with [`Hold`]. At each turn it takes findings of answers from a lane and what the other parts of the
//! panel tell ([`Outside`]), and shows what follows. Operations that were done are given to it by
//! [`Hold::apply`]; each is in force from the tick after its own. [`Hold::word`], [`Hold::zones`],
//! [`Hold::faults`], [`Hold::buzzer`] and [`Hold::counter_entries`] tell what the latest turn showed. Whether a
//! word and faults show anything new ([`is_news`], [`has_fault`]) and what the buzzer then sounds ([`sounds`])
//! are functions of values, which a plain panel calls too.
//!
//! Contracts speak of all that was ever taken: `HoldsFor` joins a [`Hold`] to the operations done and the
//! turns made, and each call answers by definitions over these lists. The files of specs/ say, in the order
//! of a turn: what a turn is (`Turns`), what findings tell of a zone (`Zones`) and of a point (`Missing`),
//! the faults and the word (`Words`), what is new, the buzzer and the entries (`Shown`).
//!
//! [`Hold::new`] alone takes memory: a few bytes for each point of the site, and a set of points for each
//! zone. What a turn costs doesn't grow with the site: it is a look at each run of findings, some work for each
//! finding of a run that tells anything new, a few operations on masks, and a look at the zones of which a finding
//! or an operation told or that are in first state. An operation costs a look at the 32 numbers of zones.
#![tactic(auto)]

mod asked;
mod block_runs;
mod hold;
mod laws;
mod loop_address;
mod news;
mod next_bit;
mod outside;
mod point_sets;
mod point_switch;
mod points;
mod shown;
mod sign;
mod signs;
mod told_missing;
mod told_zones;
mod zone_watch;
mod zones;

pub use coincidence_rules::Finding;
pub use hold::Hold;
pub use laws::{answers_tell, missing_tells, zones_tell};
pub use news::{has_fault, is_news, sounds};
pub use outside::Outside;
pub use site_types::Word;
